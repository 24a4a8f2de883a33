//! Cases of the texts and words of scripts and worlds: states, masks, patterns, scripts, turns and draws.
//!
//! Each kind of case is answered by a module of its own. In an input `\n`, `\r`, `\t` and `\xHH` stand for a byte,
//! `\(N*TEXT)` for N times a text, and `\[N*HH]` for N times a byte.
#![tactic(auto)]

mod bytes;
mod commands;
mod contents;
mod draws;
mod edits;
mod equal;
mod faults;
mod masks;
mod names;
mod patterns;
mod pieces;
mod properties;
mod scripts;
mod states;
mod turns;

use case_lines::{Answer, Cases, run_cases};
use std::alloc::Global;
use std::io;

struct TermCases;

impl Cases for TermCases {
    fn answer(&self, alloc: Global, kind: &str, input: &str, answer: &mut Answer) -> Option<()> {
        of_states(alloc, kind, input, answer)
    }
}

/// Cases of states and what they are made of, and others.
fn of_states(alloc: Global, kind: &str, input: &str, answer: &mut Answer) -> Option<()> {
    match kind {
        "state" => states::state(alloc, input, answer),
        "length" => states::length(alloc, input, answer),
        "air" => states::air(alloc, input, answer),
        "turn" => turns::turn(alloc, input, answer),
        "edit" => edits::edit(alloc, input, answer),
        "same" => equal::states(alloc, input, answer),
        "copy" => equal::copied(alloc, input, answer),
        "share" => equal::shared(alloc, input, answer),
        "name" => names::name(alloc, input, answer),
        "properties" => properties::properties(alloc, input, answer),
        "many" => properties::many(alloc, input, answer),
        "value" => properties::value(alloc, input, answer),
        _ => of_terms(alloc, kind, input, answer),
    }
}

/// Cases of masks and patterns, and others.
fn of_terms(alloc: Global, kind: &str, input: &str, answer: &mut Answer) -> Option<()> {
    match kind {
        "mask" => masks::mask(alloc, input, answer),
        "mask_copy" => masks::copied(alloc, input, answer),
        "mask_share" => masks::shared(alloc, input, answer),
        "pattern" => patterns::pattern(alloc, input, answer),
        "pattern_copy" => patterns::copied(alloc, input, answer),
        "entries" => patterns::entries(alloc, input, answer),
        _ => of_scripts(alloc, kind, input, answer),
    }
}

/// Cases of scripts, and others.
fn of_scripts(alloc: Global, kind: &str, input: &str, answer: &mut Answer) -> Option<()> {
    match kind {
        "script" => scripts::script(alloc, input, answer),
        "file" => scripts::file(alloc, input, answer),
        "line" => scripts::line(alloc, input, answer),
        "count" => scripts::count(alloc, input, answer),
        _ => of_others(alloc, kind, input, answer),
    }
}

/// Cases of what has few of them.
fn of_others(alloc: Global, kind: &str, input: &str, answer: &mut Answer) -> Option<()> {
    match kind {
        "word" => draws::word(input, answer),
        "pieces" => pieces::pieces(input, answer),
        "outside" => pieces::outside(input, answer),
        "behind" => {
            pieces::behind(alloc, input, answer);
            Some(())
        }
        "fault" => faults::fault(alloc, input, answer),
        "fault_at" => faults::fault_at(alloc, input, answer),
        "names" => equal::names(alloc, input, answer),
        "numbers" => equal::numbers(alloc, input, answer),
        "contents" => contents::contents(alloc, input, answer),
        "content" => contents::content(alloc, input, answer),
        _ => None,
    }
}

fn main(rt: HostRuntime) -> io::Result<()> {
    run_cases(&rt, &TermCases)
}
