//! Runs over the files that lie where the program runs.

use crate::endings::push_ending;
use crate::runs::{Shown, push_saved, sink_of};
use crate::words::words_of;
use case_lines::Answer;
use edit_top::run;
use run_ports::{DiskShelf, LoadError, OpenGate, Shelf};
use std::alloc::Global;
use std::rt::Files;
use std::sync::Wait;
use std::thread::Threads;

/// A run of these words. The answer is the status, the printed text and what OUT holds.
pub fn answer<R: Threads + Wait + Sync, D: Files>(
    rt: &R,
    disk: &D,
    alloc: Global,
    input: &str,
    answer: &mut Answer,
) -> Option<()> {
    let words = words_of(alloc, input, "")?;
    run_over(rt, disk, alloc, &words, answer)?;
    let [_call, _world, out, ..] = words.as_slice() else {
        return Some(());
    };
    answer.text("; ");
    push_left(disk, alloc, out.as_str(), answer)
}

fn run_over<R: Threads + Wait + Sync, D: Files>(
    rt: &R,
    disk: &D,
    alloc: Global,
    words: &[String],
    answer: &mut Answer,
) -> Option<()> {
    let mut shelf = DiskShelf::new(disk);
    let mut sink = sink_of(alloc, "")?;
    let status = run(rt, alloc, words, &mut shelf, &mut sink, &OpenGate);
    push_ending(&status, sink.written(), answer);
    Some(())
}

fn push_left<D: Files>(disk: &D, alloc: Global, name: &str, answer: &mut Answer) -> Option<()> {
    let mut shelf = DiskShelf::new(disk);
    match shelf.load(alloc, name, 1_000_000) {
        Ok(bytes) => {
            push_saved(alloc, &bytes, Shown::Blocks, answer);
            Some(())
        }
        Err(LoadError::Failed) => {
            answer.text("none");
            Some(())
        }
        Err(_) => {
            answer.fail();
            Some(())
        }
    }
}
