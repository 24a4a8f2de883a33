//! The list of block entities.
//!
//! An entry is a word of pieces with `+` between them: `@1,0,0` is its place, and `Id=minecraft:chest` a text under a name.

use crate::numbers::{push_three, three_of};
use crate::tags::{push_head, push_ints, push_string, push_u32};
use case_lines::Answer;

/// Puts a list of compounds.
pub fn push_entities(file: &mut Vec<u8>, entries: &str) -> Option<()> {
    push_head(file, 9, "BlockEntities")?;
    file.push(10).ok()?;
    let count = entries.split(' ').filter(|entry| !entry.is_empty()).count();
    push_u32(file, u32::try_from(count).ok()?)?;
    for entry in entries.split(' ') {
        if !entry.is_empty() {
            push_entry(file, entry)?;
        }
    }
    Some(())
}

fn push_entry(file: &mut Vec<u8>, entry: &str) -> Option<()> {
    for piece in entry.split('+') {
        push_piece(file, piece)?;
    }
    file.push(0).ok()
}

fn push_piece(file: &mut Vec<u8>, piece: &str) -> Option<()> {
    if let Some(place) = piece.strip_prefix('@') {
        return push_ints(file, "Pos", &three_of(place, ',')?);
    }
    let (name, text) = piece.split_once('=')?;
    push_head(file, 8, name)?;
    push_string(file, text)
}

/// Shows a list of compounds, and gives what stands behind it.
pub fn show_entities<'a>(bytes: &'a [u8], answer: &mut Answer) -> Option<&'a [u8]> {
    let list = bytes.strip_prefix(b"\x09\x00\x0DBlockEntities\x0A".as_slice())?;
    let (count, mut rest) = u32_at(list)?;
    answer.text(" / entities");
    for _ in 0..count {
        answer.text(" ");
        rest = show_entry(rest, answer)?;
    }
    Some(rest)
}

/// The most tags of an entry that is shown.
const MOST_TAGS: usize = 16;

fn show_entry<'a>(bytes: &'a [u8], answer: &mut Answer) -> Option<&'a [u8]> {
    let mut rest = show_piece(bytes, answer)?;
    for _ in 1..MOST_TAGS {
        if let [0, after @ ..] = rest {
            return Some(after);
        }
        answer.text("+");
        rest = show_piece(rest, answer)?;
    }
    None
}

fn show_piece<'a>(bytes: &'a [u8], answer: &mut Answer) -> Option<&'a [u8]> {
    match bytes.strip_prefix(b"\x0B\x00\x03Pos\x00\x00\x00\x03".as_slice()) {
        Some(numbers) => show_place(numbers, answer),
        None => show_text(bytes.strip_prefix(b"\x08".as_slice())?, answer),
    }
}

fn show_place<'a>(bytes: &'a [u8], answer: &mut Answer) -> Option<&'a [u8]> {
    let (numbers, rest) = ints_at(bytes)?;
    answer.text("@");
    push_three(&numbers, ",", answer);
    Some(rest)
}

fn show_text<'a>(bytes: &'a [u8], answer: &mut Answer) -> Option<&'a [u8]> {
    let (name, rest) = string_at(bytes)?;
    let (text, rest) = string_at(rest)?;
    answer.bytes(name);
    answer.text("=");
    answer.bytes(text);
    Some(rest)
}

pub fn u16_at(bytes: &[u8]) -> Option<(u16, &[u8])> {
    let (number, rest) = bytes.split_first_chunk::<2>()?;
    Some((u16::from_be_bytes(*number), rest))
}

pub fn u32_at(bytes: &[u8]) -> Option<(u32, &[u8])> {
    let (number, rest) = bytes.split_first_chunk::<4>()?;
    Some((u32::from_be_bytes(*number), rest))
}

pub fn i32_at(bytes: &[u8]) -> Option<(i32, &[u8])> {
    let (number, rest) = bytes.split_first_chunk::<4>()?;
    Some((i32::from_be_bytes(*number), rest))
}

/// Three numbers.
pub fn ints_at(bytes: &[u8]) -> Option<([i32; 3], &[u8])> {
    let (first, rest) = i32_at(bytes)?;
    let (second, rest) = i32_at(rest)?;
    let (third, rest) = i32_at(rest)?;
    Some(([first, second, third], rest))
}

/// A text behind its length.
pub fn string_at(bytes: &[u8]) -> Option<(&[u8], &[u8])> {
    let (length, rest) = u16_at(bytes)?;
    rest.split_at_checked(usize::from(length))
}
