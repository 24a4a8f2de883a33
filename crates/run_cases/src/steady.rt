//! Runs over a file store and an output that never fail, of which callers know nothing.

use crate::endings::push_status;
use crate::files::{Asked, asked_of, files_of};
use crate::runs::{Shown, push_saved};
use crate::words::run_words;
use case_lines::Answer;
use edit_top::run;
use run_ports::{NullSink, OpenGate, Shelf, SteadyShelf};
use std::alloc::Global;
use std::sync::Wait;
use std::thread::Threads;

/// A run `WORDS ; WORLD ; SCRIPT ; ..`. The answer is the status and what out.schem holds.
pub fn answer<R: Threads + Wait + Sync>(
    rt: &R,
    alloc: Global,
    input: &str,
    answer: &mut Answer,
) -> Option<()> {
    let asked = asked_of(input)?;
    let mut shelf = SteadyShelf::new(files_of(alloc, &asked)?);
    run_over(rt, alloc, &asked, &mut shelf, answer)?;
    answer.text("; ");
    let bytes = shelf.load(alloc, "out.schem", 1_000_000).ok()?;
    if bytes.as_slice() == b"old".as_slice() {
        answer.text("old");
        return Some(());
    }
    push_saved(alloc, &bytes, Shown::Blocks, answer);
    Some(())
}

fn run_over<R: Threads + Wait + Sync>(
    rt: &R,
    alloc: Global,
    asked: &Asked<'_>,
    shelf: &mut SteadyShelf,
    answer: &mut Answer,
) -> Option<()> {
    let words = run_words(alloc, asked.words, asked.scripts)?;
    let status = run(rt, alloc, &words, shelf, &mut NullSink::new(), &OpenGate);
    push_status(&status, answer);
    Some(())
}
