//! The commands of the drill as texts.

use crate::positions::push_position;
use crate::states::push_state;
use case_lines::Answer;
use edit_terms::{Command, Direction, Pattern, Pos, Value};
use std::alloc::Global;

/// Appends a command of the kinds that the drill has.
pub(crate) fn push_command(alloc: Global, answer: &mut Answer, command: &Command) {
    match command {
        Command::Pos1 { at } => push_selecting(answer, "//pos1 ", at),
        Command::Pos2 { at } => push_selecting(answer, "//pos2 ", at),
        Command::Set { pattern } => push_filling(alloc, answer, "//set ", pattern),
        Command::Walls { pattern } => push_filling(alloc, answer, "//walls ", pattern),
        Command::Faces { pattern } => push_filling(alloc, answer, "//faces ", pattern),
        Command::Replace { pattern, .. } => push_filling(alloc, answer, "//replace ", pattern),
        Command::Stack {
            count,
            to: Direction::Up,
        } => push_counting(answer, "//stack up ", *count),
        Command::Undo { count } => push_counting(answer, "//undo ", *count),
        _ => answer.fail(),
    }
}

fn push_selecting(answer: &mut Answer, verb: &str, at: &Pos) {
    answer.text(verb);
    push_position(answer, at)
}

fn push_counting(answer: &mut Answer, verb: &str, count: u32) {
    answer.text(verb);
    answer.number(count)
}

fn push_filling(alloc: Global, answer: &mut Answer, verb: &str, pattern: &Pattern) {
    answer.text(verb);
    match pattern.entries.as_slice() {
        [entry] => push_value(alloc, answer, &entry.value),
        _ => answer.fail(),
    }
}

fn push_value(alloc: Global, answer: &mut Answer, value: &Value) {
    match value {
        Value::Fixed(state) => push_state(alloc, answer, state),
        _ => answer.fail(),
    }
}
