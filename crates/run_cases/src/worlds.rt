//! The text of a world.
//!
//! `WxHxL at X,Y,Z STATE STATE*COUNT ..` has the sizes, the least corner and the blocks, x first, then z, then y. A
//! state without a namespace is of `minecraft`. Behind ` / ` stand changes, as `set 0,0,0 3,0,3 stone`, which blocks.rt
//! reads, and those of the file's tags, which tags.rt reads. `hex ..` has a file's bytes.

use crate::blocks::{Blocks, push_run, set_box};
use crate::hex::push_bytes_of;
use crate::numbers::three_of;
use crate::schematics::push_schematic;
use crate::tags::change_of;
use std::alloc::Global;

/// The file that a world's text stands for.
pub fn file_of(alloc: Global, text: &str) -> Option<Vec<u8>> {
    let mut file = Vec::new(alloc);
    push_file(alloc, text, &mut file)?;
    Some(file)
}

fn push_file(alloc: Global, text: &str, file: &mut Vec<u8>) -> Option<()> {
    if let Some(hex) = text.strip_prefix("hex") {
        return push_bytes_of(hex, file);
    }
    let (blocks, changes) = text.split_once(" / ").unwrap_or((text, ""));
    let blocks = blocks_of(alloc, blocks, changes)?;
    push_schematic(alloc, &blocks, changes, file)?;
    change_end(changes, file)
}

fn blocks_of<'a>(alloc: Global, text: &'a str, changes: &'a str) -> Option<Blocks<'a>> {
    let (sizes, rest) = text.split_once(" at ")?;
    let (least, runs) = rest.split_once(' ')?;
    let mut blocks = Blocks {
        sizes: three_of(sizes, 'x')?,
        least: three_of(least, ',')?,
        states: Vec::new(alloc),
        numbers: Vec::new(alloc),
    };
    push_runs(&mut blocks, runs)?;
    set_boxes(&mut blocks, changes)?;
    Some(blocks)
}

fn push_runs<'a>(blocks: &mut Blocks<'a>, runs: &'a str) -> Option<()> {
    for word in runs.split(' ') {
        push_run(blocks, word)?;
    }
    Some(())
}

fn set_boxes<'a>(blocks: &mut Blocks<'a>, changes: &'a str) -> Option<()> {
    for change in changes.split(" / ") {
        if let Some(text) = change.strip_prefix("set ") {
            set_box(blocks, text)?;
        }
    }
    Some(())
}

/// `first N` cuts a file behind its first bytes, and `then HEX` puts more behind it.
fn change_end(changes: &str, file: &mut Vec<u8>) -> Option<()> {
    if let Some(count) = change_of(changes, "first") {
        file.truncate(count.parse::<usize>().ok()?);
    }
    push_bytes_of(change_of(changes, "then").unwrap_or(""), file)
}
