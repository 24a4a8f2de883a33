//! World files that are read and written again.
//!
//! `file-again WORDS` says whether a whole file is written with the same bytes, and gives the written ones where it
//! isn't. Of the others the words are the tags of a compound `Schematic`, and the tags are told that are written: by
//! `head WORDS` those before the Palette, by `body WORDS` the Palette and those behind it, by `bare WORDS` all those of
//! the file in which nothing but the data version stands beside the world.

use crate::schematics::framed;
use crate::show::show_row;
use crate::tags::{TOO_MANY, tell_written};
use crate::words::spell;
use case_lines::Answer;
use nbt_tags::{Named, Tag, decode};
use sponge_schematic::{read_world, write_world};
use std::alloc::Global;

/// How many tags a written file has before the Palette.
const BEFORE_PALETTE: usize = 7;

pub fn answer(alloc: Global, kind: &str, input: &str, answer: &mut Answer) -> Option<()> {
    match kind {
        "file-again" => answer_again(alloc, input, answer),
        "head" => {
            let bytes = written(alloc, &framed(alloc, input)?)?;
            tell_head(alloc, answer, &bytes);
            Some(())
        }
        "body" => {
            let bytes = written(alloc, &framed(alloc, input)?)?;
            tell_body(alloc, answer, &bytes);
            Some(())
        }
        "bare" => {
            let bytes = bare(alloc, &framed(alloc, input)?)?;
            tell_all(alloc, answer, &bytes);
            Some(())
        }
        _ => None,
    }
}

fn answer_again(alloc: Global, input: &str, answer: &mut Answer) -> Option<()> {
    let bytes = spell(alloc, input)?;
    let written = written(alloc, &bytes)?;
    tell_written(alloc, answer, &bytes, &written);
    Some(())
}

/// The file of the world that these bytes give, with what they say beside it.
pub fn written(alloc: Global, bytes: &[u8]) -> Option<Vec<u8>> {
    if bytes.len() > TOO_MANY {
        return None;
    }
    let world = read_world(alloc, bytes).ok()?;
    write_world(alloc, &world.carried, &world.grid).ok()
}

/// The file of the world that these bytes give, with the data version alone.
fn bare(alloc: Global, bytes: &[u8]) -> Option<Vec<u8>> {
    if bytes.len() > TOO_MANY {
        return None;
    }
    let world = read_world(alloc, bytes).ok()?;
    let carried = world.carried.bare();
    write_world(alloc, &carried, &world.grid).ok()
}

fn tell_head(alloc: Global, answer: &mut Answer, bytes: &[u8]) {
    let Some(root) = root_of(alloc, bytes) else {
        answer.fail();
        return;
    };
    let Some(row) = row_of(&root) else {
        answer.fail();
        return;
    };
    match row.get(..BEFORE_PALETTE) {
        Some(head) => show_row(alloc, answer, head),
        None => answer.fail(),
    }
}

/// Tells the Palette of a file and what stands behind it.
pub fn tell_body(alloc: Global, answer: &mut Answer, bytes: &[u8]) {
    let Some(root) = root_of(alloc, bytes) else {
        answer.fail();
        return;
    };
    let Some(row) = row_of(&root) else {
        answer.fail();
        return;
    };
    match row.get(BEFORE_PALETTE..) {
        Some(body) => show_row(alloc, answer, body),
        None => answer.fail(),
    }
}

fn tell_all(alloc: Global, answer: &mut Answer, bytes: &[u8]) {
    let Some(root) = root_of(alloc, bytes) else {
        answer.fail();
        return;
    };
    match row_of(&root) {
        Some(row) => show_row(alloc, answer, row),
        None => answer.fail(),
    }
}

/// The root, if it has the name of a schematic.
fn root_of(alloc: Global, bytes: &[u8]) -> Option<Named> {
    if bytes.len() > TOO_MANY {
        return None;
    }
    let root = decode(alloc, bytes).ok()?;
    if root.name.as_slice() == b"Schematic".as_slice() {
        Some(root)
    } else {
        None
    }
}

fn row_of(root: &Named) -> Option<&[Named]> {
    match &root.tag {
        Tag::Compound(row) => Some(row.as_slice()),
        _ => None,
    }
}
