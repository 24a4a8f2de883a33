//! Checks of worlds.

use crate::endings::push_ending;
use crate::files::push_file;
use crate::plans::fails_of;
use crate::runs::sink_of;
use crate::words::words_of;
use crate::worlds::file_of;
use case_lines::Answer;
use edit_top::check;
use run_ports::{DiskShelf, MemoryShelf};
use std::alloc::Global;
use std::rt::Files;

/// A check `WORDS ; WORLD` or `WORDS ; WORLD ; CALLS`, where these calls fail. The world is the file in.schem, and `-`
/// stands for the words that check it.
pub fn answer(alloc: Global, input: &str, answer: &mut Answer) -> Option<()> {
    let (words, rest) = input.split_once(" ; ")?;
    let (world, calls) = rest.split_once(" ; ").unwrap_or((rest, ""));
    let mut shelf = shelf_of(alloc, world, calls)?;
    check_over(alloc, words, &mut shelf, calls, answer)
}

fn shelf_of(alloc: Global, world: &str, calls: &str) -> Option<MemoryShelf> {
    let mut files = Vec::new(alloc);
    push_file(alloc, "in.schem", file_of(alloc, world)?, &mut files)?;
    Some(MemoryShelf::new(files, fails_of(alloc, calls, "shelf")?))
}

fn check_over(
    alloc: Global,
    words: &str,
    shelf: &mut MemoryShelf,
    calls: &str,
    answer: &mut Answer,
) -> Option<()> {
    let words = words_of(alloc, words, "check in.schem")?;
    let mut sink = sink_of(alloc, calls)?;
    let status = check(alloc, &words, shelf, &mut sink);
    push_ending(&status, sink.written(), answer);
    Some(())
}

/// A check by these words of a file that lies where the program runs.
pub fn answer_on_disk<R: Files>(
    rt: &R,
    alloc: Global,
    input: &str,
    answer: &mut Answer,
) -> Option<()> {
    let words = words_of(alloc, input, "")?;
    let mut sink = sink_of(alloc, "")?;
    let status = check(alloc, &words, &mut DiskShelf::new(rt), &mut sink);
    push_ending(&status, sink.written(), answer);
    Some(())
}
