//! What commands are in their sessions, as texts.

use crate::positions::push_position;
use crate::replies::push_refusal;
use crate::selections::{push_region, push_selection};
use crate::states::push_state;
use case_lines::Answer;
use edit_terms::{BlockState, Direction, Mask, Pos, Region, Selection, Spec, Step, Work};
use std::alloc::Global;

/// Appends what a command is.
pub(crate) fn push_step(alloc: Global, answer: &mut Answer, step: &Step) {
    match step {
        Step::Settled => answer.text("ok"),
        Step::Refused(refusal) => push_refusal(answer, *refusal),
        Step::Job(spec) => push_job(alloc, answer, spec),
    }
}

fn push_job(alloc: Global, answer: &mut Answer, spec: &Spec) {
    push_work(alloc, answer, &spec.work);
    if spec.global.is_some() {
        answer.text(" under gmask");
    }
}

fn push_work(alloc: Global, answer: &mut Answer, work: &Work) {
    match work {
        Work::Fill { region, mask, .. } => push_fill(answer, region, mask),
        Work::Stack { from, count, to } => push_shift(answer, "stack ", from, *count, *to),
        Work::Move { from, count, to } => push_shift(answer, "move ", from, *count, *to),
        Work::Copy { from } => push_taken(answer, "copy ", from),
        Work::Cut { from } => push_taken(answer, "cut ", from),
        Work::Paste { place, skip_air } => push_paste(answer, place, *skip_air),
        Work::Put { at, state } => push_put(alloc, answer, at, state),
        Work::Undo { steps } => push_steps(answer, "undo", steps.as_slice()),
        Work::Redo { steps } => push_steps(answer, "redo", steps.as_slice()),
    }
}

fn push_fill(answer: &mut Answer, region: &Region, mask: &Option<Mask>) {
    answer.text("fill ");
    push_region(answer, region);
    if mask.is_some() {
        answer.text(" by mask");
    }
}

fn push_shift(answer: &mut Answer, verb: &str, from: &Selection, count: u32, to: Direction) {
    push_taken(answer, verb, from);
    answer.text(" by ");
    answer.number(count);
    answer.text(direction_text(to))
}

fn direction_text(to: Direction) -> &'static str {
    match to {
        Direction::North => " north",
        Direction::South => " south",
        Direction::East => " east",
        Direction::West => " west",
        Direction::Up => " up",
        Direction::Down => " down",
    }
}

fn push_taken(answer: &mut Answer, verb: &str, from: &Selection) {
    answer.text(verb);
    push_selection(answer, from)
}

fn push_paste(answer: &mut Answer, place: &Pos, skip_air: bool) {
    answer.text("paste at ");
    push_position(answer, place);
    if skip_air {
        answer.text(" without air");
    }
}

fn push_put(alloc: Global, answer: &mut Answer, at: &Pos, state: &BlockState) {
    answer.text("put ");
    push_position(answer, at);
    answer.text(" ");
    push_state(alloc, answer, state)
}

fn push_steps(answer: &mut Answer, verb: &str, steps: &[u32]) {
    answer.text(verb);
    for step in steps {
        answer.text(" ");
        answer.number(*step);
    }
}
