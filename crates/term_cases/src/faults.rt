//! How faults are printed.

use crate::bytes::put;
use block_state::{StateFault, TermFault};
use case_lines::Answer;
use command_syntax::{LineFault, ScriptFault};
use std::alloc::Global;
use term_text::error_at;

/// Puts the text of a state's fault. None for want of memory.
pub(crate) fn put_state_fault(alloc: Global, fault: StateFault, answer: &mut Answer) {
    match fault {
        StateFault::Memory => answer.fail(),
        _ => answer.shown(alloc, &fault),
    }
}

/// Puts the text of a mask's or a pattern's fault. None for want of memory.
pub(crate) fn put_term_fault(alloc: Global, fault: TermFault, answer: &mut Answer) {
    match fault {
        TermFault::Memory => answer.fail(),
        _ => put_printed(alloc, fault, answer),
    }
}

/// Puts the text of a script's fault. None for want of memory.
pub(crate) fn put_script_fault(alloc: Global, fault: &ScriptFault, answer: &mut Answer) {
    match fault {
        ScriptFault::Memory => answer.fail(),
        _ => answer.shown(alloc, fault),
    }
}

/// Puts the text of a line's fault.
pub(crate) fn put_line_fault(alloc: Global, fault: &LineFault, answer: &mut Answer) {
    answer.shown(alloc, fault)
}

fn put_printed(alloc: Global, fault: TermFault, answer: &mut Answer) {
    answer.shown(alloc, &fault)
}

/// `fault WORD AT`: how the fault of this word at this place of a term is printed.
pub(crate) fn fault(alloc: Global, input: &str, answer: &mut Answer) -> Option<()> {
    let (word, at) = input.split_once(' ')?;
    put_printed(alloc, term_fault(word, at.parse().ok()?)?, answer);
    Some(())
}

/// `fault_at WORD AT`: how the fault of a state at this place of a term is printed.
pub(crate) fn fault_at(alloc: Global, input: &str, answer: &mut Answer) -> Option<()> {
    let (word, at) = input.split_once(' ')?;
    let fault = error_at(at.parse().ok()?, state_fault(word)?);
    put_printed(alloc, fault, answer);
    Some(())
}

fn term_fault(word: &str, at: u32) -> Option<TermFault> {
    match word {
        "empty" => Some(TermFault::Empty { at }),
        "unknown" => Some(TermFault::Unknown { at }),
        "number" => Some(TermFault::Number { at }),
        "weight" => Some(TermFault::Weight { at }),
        "noise" => Some(TermFault::TooManyNoise { at }),
        "entries" => Some(TermFault::TooManyEntries { at }),
        "memory" => Some(TermFault::Memory),
        _ => Some(TermFault::State {
            at,
            fault: state_fault(word)?,
        }),
    }
}

fn state_fault(word: &str) -> Option<StateFault> {
    match word {
        "name" => Some(StateFault::BadName),
        "property" => Some(StateFault::BadProperty),
        "key" => Some(StateFault::RepeatedKey),
        "properties" => Some(StateFault::TooManyProperties),
        "memory" => Some(StateFault::Memory),
        _ => None,
    }
}
