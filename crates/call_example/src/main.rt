//! How a program calls the engine: a whole run over files in memory, and its script by the reference execution, over the
//! world from before and over the one that the run left.
#![tactic(auto)]

mod fold;
mod whole;

use itoa::Buffer;
use run_ports::{DiskShelf, Shelf};
use std::alloc::Global;
use std::io::{self, Write};
use std::sync::Wait;
use std::thread::Threads;

fn main(rt: HostRuntime) -> io::Result<()> {
    let alloc = rt.alloc();
    let mut disk = DiskShelf::new(rt.clone()?);
    match answer(&rt, alloc, &mut disk) {
        Some(text) => io::writer(&rt).write_all(&text),
        None => println!(&rt; "not run"),
    }
}

/// The code and the text of a whole run, and how many blocks its script changes before it and after it. None where a
/// file can't be loaded or isn't read, or an allocation was refused.
fn answer<R: Threads + Wait + Sync, F: Shelf>(
    rt: &R,
    alloc: Global,
    disk: &mut F,
) -> Option<Vec<u8>> {
    let world = disk.load(alloc, "meadow.schem", 268_435_456).ok()?;
    let script = disk.load(alloc, "anna.txt", 1_048_576).ok()?;
    let ended = whole::run_in_memory(rt, alloc, &world, &script)?;
    let mut text = Vec::new(alloc);
    push_number(&mut text, b"code ", u64::from(ended.code))?;
    text.extend_from_slice(&ended.text).ok()?;
    push_number(
        &mut text,
        b"before ",
        fold::changed(alloc, &world, &script)?,
    )?;
    push_number(
        &mut text,
        b"after ",
        fold::changed(alloc, &ended.saved, &script)?,
    )?;
    Some(text)
}

/// Puts a line of a word and a number behind a text.
fn push_number(text: &mut Vec<u8>, word: &[u8], number: u64) -> Option<()> {
    let mut digits = Buffer::new();
    text.extend_from_slice(word).ok()?;
    text.extend_from_slice(digits.format(number).as_bytes())
        .ok()?;
    text.push(b'\n').ok()
}
