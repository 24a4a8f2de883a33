//! A whole run, from words and files to words and files.

use edit_top::run;
use run_ports::{MemoryShelf, MemorySink, OpenGate};
use std::alloc::Global;
use std::sync::Wait;
use std::thread::Threads;

/// What a run left: its status's code, the text that it printed, and the bytes of OUT.
#[derive(Drop)]
pub struct Ended {
    pub code: u8,
    pub text: Vec<u8>,
    pub saved: Vec<u8>,
}

/// Runs one script over a world. None where an allocation was refused.
pub fn run_in_memory<R: Threads + Wait + Sync>(
    rt: &R,
    alloc: Global,
    world: &[u8],
    script: &[u8],
) -> Option<Ended> {
    let mut files = Vec::new(alloc);
    push_file(alloc, &mut files, "in.schem", world)?;
    push_file(alloc, &mut files, "anna.txt", script)?;
    // A name that isn't in the list can't be saved.
    push_file(alloc, &mut files, "out.schem", b"")?;
    let mut shelf = MemoryShelf::new(files, Vec::new(alloc));
    let mut sink = MemorySink::new(alloc, 65_536, Vec::new(alloc)).ok()?;
    let words = words_of(alloc, "run in.schem out.schem 0 1 15 anna.txt")?;
    let status = run(rt, alloc, &words, &mut shelf, &mut sink, &OpenGate);
    Some(Ended {
        code: status.code(),
        text: sink.written().to_vec(alloc).ok()?,
        saved: shelf.file("out.schem")?.to_vec(alloc).ok()?,
    })
}

/// Puts a file behind the others.
fn push_file(
    alloc: Global,
    files: &mut Vec<(String, Vec<u8>)>,
    name: &str,
    bytes: &[u8],
) -> Option<()> {
    let name = String::from_str(alloc, name).ok()?;
    files.push((name, bytes.to_vec(alloc).ok()?)).ok()
}

/// The words of a text.
fn words_of(alloc: Global, text: &str) -> Option<Vec<String>> {
    let mut words = Vec::new(alloc);
    for word in text.split(' ') {
        words.push(String::from_str(alloc, word).ok()?).ok()?;
    }
    Some(words)
}
