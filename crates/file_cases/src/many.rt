//! `many COUNT WORDS`: a world of so many states, each of which stands once, is read and written, and it is told
//! whether the states are numbered anew by their appearance, and whether the new file is written as it is. The words
//! are the sizes and the Offset.

use crate::again::written;
use crate::words::put_words;
use case_lines::{Answer, push_number};
use std::alloc::Global;

pub fn answer(alloc: Global, input: &str, answer: &mut Answer) -> Option<()> {
    let (count, head) = input.split_once(' ')?;
    let count = count.parse::<u32>().ok()?;
    let read = file_of(alloc, head, count, true)?;
    let wanted = file_of(alloc, head, count, false)?;
    let found = written(alloc, &read)?;
    tell(
        answer,
        *found == *wanted,
        "numbered anew",
        "numbered otherwise",
    );
    let found = written(alloc, &wanted)?;
    tell(
        answer,
        *found == *wanted,
        ", and then kept",
        ", and then changed",
    );
    Some(())
}

fn tell(answer: &mut Answer, is_so: bool, yes: &str, no: &str) {
    answer.text(if is_so { yes } else { no });
}

/// A file of these words and so many states, which are named by numbers that fall in index order. Their palette has them
/// in that order, or in the other one.
fn file_of(alloc: Global, head: &str, count: u32, is_other: bool) -> Option<Vec<u8>> {
    let mut out = Vec::new(alloc);
    put_words(alloc, &mut out, "compound:Schematic{ version data-version")?;
    put_words(alloc, &mut out, head)?;
    out.extend_from_slice(b"\x03\0\x0APaletteMax").ok()?;
    out.extend_from_slice(&count.to_be_bytes()).ok()?;
    put_words(alloc, &mut out, "palette{")?;
    put_entries(&mut out, count, is_other)?;
    out.extend_from_slice(b"\0\x07\0\x09BlockData").ok()?;
    put_cells(alloc, &mut out, count, is_other)?;
    out.push(0).ok()?;
    Some(out)
}

/// The numbers below a count from the least or from the greatest on.
fn number_at(count: u32, place: u32, is_falling: bool) -> u32 {
    if is_falling {
        count.saturating_sub(place).saturating_sub(1)
    } else {
        place
    }
}

fn put_entries(out: &mut Vec<u8>, count: u32, is_other: bool) -> Option<()> {
    for place in 0..count {
        put_entry(out, number_at(count, place, !is_other), place)?;
    }
    Some(())
}

/// The palette entry of a state named by six digits.
fn put_entry(out: &mut Vec<u8>, name: u32, place: u32) -> Option<()> {
    out.extend_from_slice(b"\x03\0\x11minecraft:b").ok()?;
    push_number(out, 100_000 + name % 900_000).ok()?;
    out.extend_from_slice(&place.to_be_bytes()).ok()
}

fn put_cells(alloc: Global, out: &mut Vec<u8>, count: u32, is_other: bool) -> Option<()> {
    let mut data = Vec::new(alloc);
    for cell in 0..count {
        put_varint(&mut data, number_at(count, cell, is_other))?;
    }
    out.extend_from_slice(&u32::try_from(data.len()).ok()?.to_be_bytes())
        .ok()?;
    out.extend_from_slice(&data).ok()
}

/// A varint of three bytes at most.
fn put_varint(data: &mut Vec<u8>, number: u32) -> Option<()> {
    if number < 128 {
        return data.push(number as u8).ok();
    }
    data.push((number % 128 + 128) as u8).ok()?;
    let rest = number / 128;
    if rest < 128 {
        return data.push(rest as u8).ok();
    }
    data.push((rest % 128 + 128) as u8).ok()?;
    data.push(u8::try_from(rest / 128).ok()?).ok()
}
