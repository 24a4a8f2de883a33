//! File stores by themselves: `load NAME LIMIT` and `save NAME BYTES`, and of a store in memory `file NAME`, which tells
//! what the file holds. A name `-` is empty. The answers stand with ` | ` between them.

use crate::files::push_file;
use crate::plans::fails_of;
use case_lines::Answer;
use run_ports::{DiskShelf, Failed, LoadError, MemoryShelf, Shelf, SteadyShelf};
use std::alloc::Global;
use std::rt::Files;

/// A store `NAME=BYTES .. ; CALLS ; CALL | CALL ..`, where these calls fail.
pub fn answer(alloc: Global, input: &str, answer: &mut Answer) -> Option<()> {
    let (files, rest) = input.split_once(" ; ")?;
    let (fails, calls) = rest.split_once(" ; ")?;
    let files = files_of(alloc, files)?;
    let mut shelf = MemoryShelf::new(files, fails_of(alloc, fails, "shelf")?);
    for call in calls.split(" | ") {
        push_between(answer);
        push_call_or_file(alloc, &mut shelf, call, answer);
    }
    Some(())
}

/// A store that never fails, `NAME=BYTES .. ; CALL | CALL ..`.
pub fn answer_steady(alloc: Global, input: &str, answer: &mut Answer) -> Option<()> {
    let (files, calls) = input.split_once(" ; ")?;
    let mut shelf = SteadyShelf::new(files_of(alloc, files)?);
    push_calls(alloc, &mut shelf, calls, answer);
    Some(())
}

/// The files that lie where the program runs, `CALL | CALL ..`.
pub fn answer_disk<R: Files>(rt: &R, alloc: Global, calls: &str, answer: &mut Answer) {
    let mut shelf = DiskShelf::new(rt);
    push_calls(alloc, &mut shelf, calls, answer)
}

fn files_of(alloc: Global, text: &str) -> Option<Vec<(String, Vec<u8>)>> {
    let mut files = Vec::new(alloc);
    push_files(alloc, text, &mut files)?;
    Some(files)
}

fn push_files(alloc: Global, text: &str, files: &mut Vec<(String, Vec<u8>)>) -> Option<()> {
    for file in text.split(' ') {
        let (name, bytes) = file.split_once('=')?;
        let bytes = bytes.as_bytes().to_vec(alloc).ok()?;
        push_file(alloc, name, bytes, files)?;
    }
    Some(())
}

fn push_call_or_file(alloc: Global, shelf: &mut MemoryShelf, call: &str, answer: &mut Answer) {
    match call.strip_prefix("file ") {
        None => push_call(alloc, shelf, call, answer),
        Some(name) => match shelf.file(name) {
            None => answer.text("none"),
            Some(bytes) => push_bytes(bytes, answer),
        },
    }
}

fn push_calls<F: Shelf>(alloc: Global, shelf: &mut F, calls: &str, answer: &mut Answer) {
    for call in calls.split(" | ") {
        push_between(answer);
        push_call(alloc, shelf, call, answer);
    }
}

/// Puts ` | ` behind what is there, where there is something.
pub(crate) fn push_between(answer: &mut Answer) {
    if answer.is_empty() {
        return;
    }
    answer.text(" | ")
}

fn push_saving(saved: Result<(), Failed>, answer: &mut Answer) {
    answer.text(if saved.is_ok() { "ok" } else { "failed" })
}

fn push_call<F: Shelf>(alloc: Global, shelf: &mut F, call: &str, answer: &mut Answer) {
    let Some((word, rest)) = call.split_once(' ') else {
        answer.fail();
        return;
    };
    let (name, rest) = rest.split_once(' ').unwrap_or((rest, ""));
    let name = if name == "-" { "" } else { name };
    if word == "load" {
        return match rest.parse::<u64>() {
            Ok(limit) => push_load(alloc, shelf, name, limit, answer),
            Err(_) => answer.fail(),
        };
    }
    match rest.as_bytes().to_vec(alloc) {
        Ok(bytes) => push_saving(shelf.save(name, bytes), answer),
        Err(_) => answer.fail(),
    }
}

fn push_load<F: Shelf>(alloc: Global, shelf: &mut F, name: &str, limit: u64, answer: &mut Answer) {
    match shelf.load(alloc, name, limit) {
        Ok(bytes) => push_bytes(&bytes, answer),
        Err(LoadError::Failed) => answer.text("failed"),
        Err(LoadError::TooLong) => answer.text("too long"),
        Err(LoadError::Memory) => answer.text("memory"),
    }
}

/// The most bytes that are shown whole.
const MOST_SHOWN: usize = 40;

/// Shows bytes, or only their count where there are many.
fn push_bytes(bytes: &[u8], answer: &mut Answer) {
    if bytes.len() > MOST_SHOWN {
        answer.number(bytes.len());
        answer.text(" bytes");
        return;
    }
    answer.byte(b'"');
    answer.bytes(bytes);
    answer.byte(b'"')
}
