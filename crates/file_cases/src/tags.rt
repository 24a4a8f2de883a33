//! Tags and rows of tags.
//!
//! `bytes WORDS` gives the words' bytes. `tag WORDS` gives the tag that they spell, or the first fault. `again WORDS`
//! says whether it is written with the same bytes, and gives the written ones where it isn't; `copy WORDS` gives a copy
//! of it. `row DEPTH WORDS`, `row-again` and `read-row` are of named tags in a compound of that depth. `room COUNT LEFT`
//! is for how many items room is taken.

use crate::faults::tell_nbt;
use crate::show::{show_hex, show_named, show_row};
use crate::words::spell;
use case_lines::Answer;
use nbt_tags::{Named, decode, decode_row, encode, encode_row, read_row, room_for};
use std::alloc::Global;

/// More bytes than any case has.
pub const TOO_MANY: usize = 1_000_000_000;

pub fn answer(alloc: Global, kind: &str, input: &str, answer: &mut Answer) -> Option<()> {
    let bytes = spell(alloc, input)?;
    match kind {
        "bytes" => {
            show_hex(alloc, answer, &bytes);
            Some(())
        }
        "tag" => answer_tag(alloc, &bytes, answer),
        "copy" => answer_copy(alloc, &bytes, answer),
        _ => answer_again(alloc, &bytes, answer),
    }
}

fn answer_tag(alloc: Global, bytes: &[u8], answer: &mut Answer) -> Option<()> {
    if bytes.len() > TOO_MANY {
        return None;
    }
    match decode(alloc, bytes) {
        Ok(named) => {
            show_named(alloc, answer, &named);
            Some(())
        }
        Err(fault) => tell_nbt(answer, fault),
    }
}

fn answer_copy(alloc: Global, bytes: &[u8], answer: &mut Answer) -> Option<()> {
    if bytes.len() > TOO_MANY {
        return None;
    }
    let Named { name, tag } = decode(alloc, bytes).ok()?;
    let copy = tag.copy(alloc).ok()?;
    show_named(alloc, answer, &Named { name, tag: copy });
    Some(())
}

fn answer_again(alloc: Global, bytes: &[u8], answer: &mut Answer) -> Option<()> {
    if bytes.len() > TOO_MANY {
        return None;
    }
    match decode(alloc, bytes) {
        Ok(named) => {
            tell_written(alloc, answer, bytes, &encode(alloc, &named).ok()?);
            Some(())
        }
        Err(fault) => tell_nbt(answer, fault),
    }
}

/// `same` where the bytes that were written are those that were read, and else the written ones.
pub fn tell_written(alloc: Global, answer: &mut Answer, read: &[u8], written: &[u8]) {
    if *read == *written {
        answer.text("same");
        return;
    }
    show_hex(alloc, answer, written)
}

/// A case whose input begins with a compound's depth.
pub fn answer_row(alloc: Global, kind: &str, input: &str, answer: &mut Answer) -> Option<()> {
    let (depth, words) = match input.split_once(' ') {
        Some(parts) => parts,
        None => (input, ""),
    };
    let depth = depth.parse::<usize>().ok()?;
    let bytes = spell(alloc, words)?;
    if depth > 512 {
        return None;
    }
    match kind {
        "row" => answer_decoded(alloc, &bytes, depth, answer),
        "row-again" => answer_encoded(alloc, &bytes, depth, answer),
        _ => answer_read(alloc, &bytes, depth, answer),
    }
}

fn answer_decoded(alloc: Global, bytes: &[u8], depth: usize, answer: &mut Answer) -> Option<()> {
    if bytes.len() > TOO_MANY || depth > 512 {
        return None;
    }
    match decode_row(alloc, bytes, depth) {
        Ok(row) => {
            show_row(alloc, answer, row.as_slice());
            Some(())
        }
        Err(fault) => tell_nbt(answer, fault),
    }
}

fn answer_encoded(alloc: Global, bytes: &[u8], depth: usize, answer: &mut Answer) -> Option<()> {
    if bytes.len() > TOO_MANY || depth > 512 {
        return None;
    }
    let row = decode_row(alloc, bytes, depth).ok()?;
    let written = encode_row(alloc, row.as_slice()).ok()?;
    tell_written(alloc, answer, bytes, &written);
    Some(())
}

fn answer_read(alloc: Global, bytes: &[u8], depth: usize, answer: &mut Answer) -> Option<()> {
    if depth > 512 {
        return None;
    }
    match read_row(alloc, bytes, depth).ok()? {
        Some(row) => {
            show_row(alloc, answer, row.as_slice());
            Some(())
        }
        None => {
            answer.text("none");
            Some(())
        }
    }
}

pub fn answer_room(input: &str, answer: &mut Answer) -> Option<()> {
    let (count, left) = input.split_once(' ')?;
    let room = room_for(count.parse::<i32>().ok()?, left.parse::<u32>().ok()?);
    answer.number(room);
    Some(())
}
