//! A saved file, shown as the text of its world.

use crate::entities::{ints_at, show_entities, string_at, u16_at, u32_at};
use crate::hex::{push_digits, push_hex};
use crate::numbers::push_three;
use crate::worlds::file_of;
use case_lines::Answer;
use std::alloc::Global;

/// What stands in every file before the sizes.
const FRONT: &[u8] =
    b"\x0A\x00\x09Schematic\x03\x00\x07Version\x00\x00\x00\x02\x03\x00\x0BDataVersion\x00\x00\x0A\x1A";

/// The parts of a file.
#[derive(Drop)]
struct Saved<'a> {
    sizes: [i32; 3],
    least: [i32; 3],
    names: Vec<&'a [u8]>,
    numbers: Vec<usize>,
    others: &'a [u8],
}

/// Shows a file as its world's text, if that text spells exactly its bytes, and else its bytes.
pub fn show_file(alloc: Global, bytes: &[u8], answer: &mut Answer) {
    let mut shown = Answer::new(alloc);
    show_world(alloc, bytes, &mut shown);
    match shown.whole() {
        Some(text) if is_spelled(alloc, text, bytes) => answer.bytes(text),
        _ => push_hex(bytes, answer),
    }
}

fn is_spelled(alloc: Global, text: &[u8], bytes: &[u8]) -> bool {
    let Ok(text) = str::from_utf8(text) else {
        return false;
    };
    match file_of(alloc, text) {
        Some(file) => file.as_slice() == bytes,
        None => false,
    }
}

fn show_world(alloc: Global, bytes: &[u8], answer: &mut Answer) {
    let Some(saved) = saved_of(alloc, bytes) else {
        answer.fail();
        return;
    };
    push_three(&saved.sizes, "x", answer);
    answer.text(" at ");
    push_three(&saved.least, ",", answer);
    push_runs(&saved.names, &saved.numbers, answer);
    push_others(saved.others, answer)
}

/// Shows how many blocks have each state of a file's palette.
pub fn show_counts(alloc: Global, bytes: &[u8], answer: &mut Answer) {
    let Some(saved) = saved_of(alloc, bytes) else {
        answer.fail();
        return;
    };
    let mut between = "";
    for (number, name) in saved.names.iter().enumerate() {
        answer.text(between);
        push_count(name, number, &saved.numbers, answer);
        between = " ";
    }
}

fn push_count(name: &[u8], number: usize, numbers: &[usize], answer: &mut Answer) {
    push_name(name, answer);
    answer.text("*");
    let count = numbers.iter().filter(|other| **other == number).count();
    answer.number(count)
}

fn saved_of(alloc: Global, bytes: &[u8]) -> Option<Saved<'_>> {
    let (sizes, rest) = sizes_at(bytes.strip_prefix(FRONT)?)?;
    let rest = rest.strip_prefix(b"\x0B\x00\x06Offset\x00\x00\x00\x03".as_slice())?;
    let (least, rest) = ints_at(rest)?;
    let (entries, rest) = u32_at(rest.strip_prefix(b"\x03\x00\x0APaletteMax".as_slice())?)?;
    let rest = rest.strip_prefix(b"\x0A\x00\x07Palette".as_slice())?;
    let mut names = Vec::new(alloc);
    let rest = push_names(rest, entries, &mut names)?;
    let (data, others) = data_at(rest)?;
    let mut numbers = Vec::new(alloc);
    push_numbers(data, &mut numbers)?;
    Some(Saved {
        sizes,
        least,
        names,
        numbers,
        others,
    })
}

fn sizes_at(bytes: &[u8]) -> Option<([i32; 3], &[u8])> {
    let (width, rest) = u16_at(bytes.strip_prefix(b"\x02\x00\x05Width".as_slice())?)?;
    let (height, rest) = u16_at(rest.strip_prefix(b"\x02\x00\x06Height".as_slice())?)?;
    let (length, rest) = u16_at(rest.strip_prefix(b"\x02\x00\x06Length".as_slice())?)?;
    let sizes = [i32::from(width), i32::from(height), i32::from(length)];
    Some((sizes, rest))
}

/// Takes the palette's names, which are numbered in order, and gives what stands behind the palette.
fn push_names<'a>(bytes: &'a [u8], count: u32, names: &mut Vec<&'a [u8]>) -> Option<&'a [u8]> {
    let mut rest = bytes;
    for _ in 0..count {
        let (name, after) = string_at(rest.strip_prefix(b"\x03".as_slice())?)?;
        let (_number, after) = u32_at(after)?;
        names.push(name).ok()?;
        rest = after;
    }
    rest.strip_prefix(b"\x00".as_slice())
}

fn data_at(bytes: &[u8]) -> Option<(&[u8], &[u8])> {
    let (count, rest) = u32_at(bytes.strip_prefix(b"\x07\x00\x09BlockData".as_slice())?)?;
    rest.split_at_checked(usize::try_from(count).ok()?)
}

/// Takes the varints of numbers below 16,384.
fn push_numbers(data: &[u8], numbers: &mut Vec<usize>) -> Option<()> {
    let mut low = None;
    for byte in data {
        low = next_number(low, usize::from(*byte), numbers)?;
    }
    match low {
        None => Some(()),
        Some(_) => None,
    }
}

fn next_number(low: Option<usize>, byte: usize, numbers: &mut Vec<usize>) -> Option<Option<usize>> {
    match low {
        None if byte >= 128 => return Some(Some(byte % 128)),
        None => numbers.push(byte).ok()?,
        Some(low) => numbers.push(byte.wrapping_mul(128).wrapping_add(low)).ok()?,
    }
    Some(None)
}

/// Shows blocks as runs of states.
fn push_runs(names: &[&[u8]], numbers: &[usize], answer: &mut Answer) {
    let mut last = None;
    let mut count = 0_u64;
    for number in numbers {
        if last != Some(*number) {
            push_run(names, last, count, answer);
            last = Some(*number);
            count = 0;
        }
        count = count.saturating_add(1);
    }
    push_run(names, last, count, answer)
}

fn push_run(names: &[&[u8]], number: Option<usize>, count: u64, answer: &mut Answer) {
    let Some(number) = number else {
        return;
    };
    answer.text(" ");
    match names.get(number) {
        Some(name) => push_name(name, answer),
        None => answer.fail(),
    }
    if count != 1 {
        answer.text("*");
        answer.number(count);
    }
}

/// Shows a state's name, without the usual namespace.
fn push_name(name: &[u8], answer: &mut Answer) {
    let short = name.strip_prefix(b"minecraft:".as_slice()).unwrap_or(name);
    answer.bytes(short)
}

/// Shows what stands behind the block data.
fn push_others(bytes: &[u8], answer: &mut Answer) {
    let rest = if bytes.starts_with(b"\x09\x00\x0DBlockEntities\x0A") {
        show_entities(bytes, answer)
    } else {
        Some(bytes)
    };
    let Some([tail @ .., 0]) = rest else {
        answer.fail();
        return;
    };
    if tail.is_empty() {
        return;
    }
    answer.text(" / tail ");
    push_digits(tail, answer);
}
