//! The files of a run in memory.

use crate::{scripts, worlds};
use case_lines::Answer;
use run_ports::MemoryShelf;
use std::alloc::Global;

/// What a run is asked: its words, its world and its scripts, `NAME: SCRIPT` with ` ; ` between them.
#[derive(Clone, Copy)]
pub struct Asked<'a> {
    pub words: &'a str,
    pub world: &'a str,
    pub scripts: &'a str,
}

/// The parts of `WORDS ; WORLD ; SCRIPT ; SCRIPT`.
pub fn asked_of(input: &str) -> Option<Asked<'_>> {
    let (words, rest) = input.split_once(" ; ")?;
    let (world, scripts) = rest.split_once(" ; ").unwrap_or((rest, ""));
    Some(Asked {
        words,
        world,
        scripts,
    })
}

/// The files: in.schem, out.schem, which holds `old`, and the scripts.
pub fn files_of(alloc: Global, asked: &Asked<'_>) -> Option<Vec<(String, Vec<u8>)>> {
    let mut files = Vec::new(alloc);
    push_worlds(alloc, asked.world, &mut files)?;
    push_scripts(alloc, asked.scripts, &mut files)?;
    Some(files)
}

/// The world `none` is no file.
fn push_worlds(alloc: Global, world: &str, files: &mut Vec<(String, Vec<u8>)>) -> Option<()> {
    if world != "none" {
        push_file(alloc, "in.schem", worlds::file_of(alloc, world)?, files)?;
    }
    let old = b"old".to_vec(alloc).ok()?;
    push_file(alloc, "out.schem", old, files)
}

fn push_scripts(alloc: Global, text: &str, files: &mut Vec<(String, Vec<u8>)>) -> Option<()> {
    for script in text.split(" ; ") {
        if let Some((name, text)) = script.split_once(':') {
            let text = text.strip_prefix(' ').unwrap_or(text);
            push_file(alloc, name, scripts::file_of(alloc, text)?, files)?;
        }
    }
    Some(())
}

/// Puts a file behind the others.
pub fn push_file(
    alloc: Global,
    name: &str,
    bytes: Vec<u8>,
    files: &mut Vec<(String, Vec<u8>)>,
) -> Option<()> {
    let name = String::from_str(alloc, name).ok()?;
    files.push((name, bytes)).ok()
}

/// Tells each file other than OUT that is not as it was.
pub fn push_changed(
    alloc: Global,
    asked: &Asked<'_>,
    shelf: &MemoryShelf,
    out: &str,
    answer: &mut Answer,
) -> Option<()> {
    let Some(files) = files_of(alloc, asked) else {
        answer.fail();
        return Some(());
    };
    for file in &files {
        if file.0.as_str() != out {
            push_if_changed(file.0.as_str(), &file.1, shelf, answer);
        }
    }
    Some(())
}

fn push_if_changed(name: &str, bytes: &[u8], shelf: &MemoryShelf, answer: &mut Answer) {
    if shelf.file(name) == Some(bytes) {
        return;
    }
    answer.bytes(b"; changed ");
    answer.bytes(name.as_bytes())
}
