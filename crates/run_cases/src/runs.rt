//! Runs over files in memory.
//!
//! The answer is the status, the printed text and what OUT holds: `old` as before, a world's text, or bytes.

use crate::endings::push_ending;
use crate::files::{Asked, asked_of, files_of, push_changed};
use crate::hex::push_hex;
use crate::plans::{fails_of, room_of};
use crate::saved::{show_counts, show_file};
use crate::words::run_words;
use crate::worlds::file_of;
use case_lines::Answer;
use edit_top::run;
use run_ports::{MemoryShelf, MemorySink, OpenGate};
use std::alloc::Global;
use std::sync::Wait;
use std::thread::Threads;

/// How a saved file is shown.
#[derive(Clone, Copy)]
pub enum Shown<'a> {
    /// As its world's text.
    Blocks,
    /// As its bytes.
    Bytes,
    /// As how many blocks have each state.
    Counts,
    /// As `same`, where it is the file of this world's text.
    Wanted(&'a str),
}

/// A run `WORDS ; WORLD ; SCRIPT ; ..`.
pub fn answer<R: Threads + Wait + Sync>(
    rt: &R,
    alloc: Global,
    input: &str,
    shown: Shown<'_>,
    answer: &mut Answer,
) -> Option<()> {
    let asked = asked_of(input)?;
    answer_with(rt, alloc, &asked, "", shown, answer)
}

/// A run `WORDS ; WORLD ; SCRIPT ; .. ; WANTED`, where WANTED is the world that it leaves.
pub fn answer_same<R: Threads + Wait + Sync>(
    rt: &R,
    alloc: Global,
    input: &str,
    answer: &mut Answer,
) -> Option<()> {
    let (input, wanted) = input.rsplit_once(" ; ")?;
    let asked = asked_of(input)?;
    answer_with(rt, alloc, &asked, "", Shown::Wanted(wanted), answer)
}

/// A run `CALLS ; WORDS ; WORLD ; SCRIPT ; ..` of which these calls fail.
pub fn answer_failing<R: Threads + Wait + Sync>(
    rt: &R,
    alloc: Global,
    input: &str,
    answer: &mut Answer,
) -> Option<()> {
    let (calls, input) = input.split_once(" ; ")?;
    let asked = asked_of(input)?;
    answer_with(rt, alloc, &asked, calls, Shown::Blocks, answer)
}

fn answer_with<R: Threads + Wait + Sync>(
    rt: &R,
    alloc: Global,
    asked: &Asked<'_>,
    calls: &str,
    shown: Shown<'_>,
    answer: &mut Answer,
) -> Option<()> {
    let words = run_words(alloc, asked.words, asked.scripts)?;
    let mut shelf = shelf_of(alloc, asked, calls)?;
    run_over(rt, alloc, &words, &mut shelf, calls, answer)?;
    push_left(alloc, asked, &words, &shelf, shown, answer)
}

fn shelf_of(alloc: Global, asked: &Asked<'_>, calls: &str) -> Option<MemoryShelf> {
    let files = files_of(alloc, asked)?;
    let fails = fails_of(alloc, calls, "shelf")?;
    Some(MemoryShelf::new(files, fails))
}

/// An output of the room that the calls name, with those of its calls that fail.
pub fn sink_of(alloc: Global, calls: &str) -> Option<MemorySink> {
    let fails = fails_of(alloc, calls, "put")?;
    MemorySink::new(alloc, room_of(calls)?, fails).ok()
}

fn run_over<R: Threads + Wait + Sync>(
    rt: &R,
    alloc: Global,
    words: &[String],
    shelf: &mut MemoryShelf,
    calls: &str,
    answer: &mut Answer,
) -> Option<()> {
    let mut sink = sink_of(alloc, calls)?;
    let status = run(rt, alloc, words, shelf, &mut sink, &OpenGate);
    push_ending(&status, sink.written(), answer);
    Some(())
}

/// Shows what OUT holds, which is the third word where there are so many, and which other files changed.
fn push_left(
    alloc: Global,
    asked: &Asked<'_>,
    words: &[String],
    shelf: &MemoryShelf,
    shown: Shown<'_>,
    answer: &mut Answer,
) -> Option<()> {
    let out = match words {
        [_call, _world, out, ..] => out.as_str(),
        _ => "out.schem",
    };
    answer.text("; ");
    push_out(alloc, shelf.file(out), shown, answer);
    push_changed(alloc, asked, shelf, out, answer)
}

/// Shows what a file holds: `none` where there is none, and `old` where it was not saved.
fn push_out(alloc: Global, file: Option<&[u8]>, shown: Shown<'_>, answer: &mut Answer) {
    match file {
        None => answer.text("none"),
        Some(b"old") => answer.text("old"),
        Some(bytes) => push_saved(alloc, bytes, shown, answer),
    }
}

/// Shows a saved file.
pub fn push_saved(alloc: Global, bytes: &[u8], shown: Shown<'_>, answer: &mut Answer) {
    match shown {
        Shown::Blocks => show_file(alloc, bytes, answer),
        Shown::Bytes => push_hex(bytes, answer),
        Shown::Counts => show_counts(alloc, bytes, answer),
        Shown::Wanted(wanted) => match file_of(alloc, wanted) {
            Some(file) if file.as_slice() == bytes => answer.text("same"),
            Some(_) => show_file(alloc, bytes, answer),
            None => answer.fail(),
        },
    }
}
