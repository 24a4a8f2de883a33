//! The spelling of a world's file, tag by tag.
//!
//! `palette NAME=NUMBER ..` and `data HEX` have another palette and other block data than those of the blocks. `entities
//! ..` has a list of block entities, and `tail HEX` any bytes behind the tags.

use crate::blocks::Blocks;
use crate::entities::push_entities;
use crate::hex::push_bytes_of;
use crate::tags::{change_of, is_named, push_changed, push_head, push_ints, push_string, push_u32};
use case_lines::push_text;
use std::alloc::Global;

const LAYOUT: [&str; 9] = [
    "Version",
    "DataVersion",
    "Width",
    "Height",
    "Length",
    "Offset",
    "PaletteMax",
    "Palette",
    "BlockData",
];

/// The states that the blocks have, by first appearance, and the varints of the blocks' numbers there.
#[derive(Drop)]
struct Numbered {
    order: Vec<u16>,
    data: Vec<u8>,
}

/// Puts a world's file behind other bytes.
pub fn push_schematic(
    alloc: Global,
    blocks: &Blocks<'_>,
    changes: &str,
    file: &mut Vec<u8>,
) -> Option<()> {
    let mut numbered = Numbered {
        order: Vec::new(alloc),
        data: Vec::new(alloc),
    };
    number_blocks(&blocks.numbers, &mut numbered)?;
    push_head(file, 10, "Schematic")?;
    push_layout(file, blocks, &numbered, changes)?;
    push_others(file, changes)?;
    file.push(0).ok()
}

fn number_blocks(numbers: &[u16], numbered: &mut Numbered) -> Option<()> {
    for number in numbers {
        let place = place_in(&mut numbered.order, *number)?;
        push_varint(&mut numbered.data, place)?;
    }
    Some(())
}

fn place_in(order: &mut Vec<u16>, number: u16) -> Option<usize> {
    if let Some(place) = order.iter().position(|known| *known == number) {
        return Some(place);
    }
    let place = order.len();
    order.push(number).ok()?;
    Some(place)
}

/// Puts the varint of a number below 16,384.
fn push_varint(data: &mut Vec<u8>, number: usize) -> Option<()> {
    if number >= 128 {
        let low = u8::try_from(number % 128).ok()?;
        data.push(low | 128).ok()?;
        return data.push(u8::try_from(number / 128).ok()?).ok();
    }
    data.push(u8::try_from(number).ok()?).ok()
}

fn push_layout(
    file: &mut Vec<u8>,
    blocks: &Blocks<'_>,
    numbered: &Numbered,
    changes: &str,
) -> Option<()> {
    for name in LAYOUT {
        push_tags(file, blocks, numbered, changes, name)?;
    }
    Some(())
}

/// Puts a tag as often as it is to stand.
fn push_tags(
    file: &mut Vec<u8>,
    blocks: &Blocks<'_>,
    numbered: &Numbered,
    changes: &str,
    name: &str,
) -> Option<()> {
    if is_named(changes, "without", name) {
        return Some(());
    }
    if is_named(changes, "twice", name) {
        push_tag(file, blocks, numbered, changes, name)?;
    }
    push_tag(file, blocks, numbered, changes, name)
}

fn push_tag(
    file: &mut Vec<u8>,
    blocks: &Blocks<'_>,
    numbered: &Numbered,
    changes: &str,
    name: &str,
) -> Option<()> {
    if let Some(change) = change_of(changes, name) {
        return push_changed(file, name, change);
    }
    let [width, height, length] = blocks.sizes;
    match name {
        "Version" => push_int(file, name, 2),
        "DataVersion" => push_int(file, name, 2586),
        "Width" => push_short(file, name, width),
        "Height" => push_short(file, name, height),
        "Length" => push_short(file, name, length),
        "Offset" => push_ints(file, name, &blocks.least),
        "PaletteMax" => push_int(file, name, numbered.order.len()),
        "Palette" => push_palette(file, &blocks.states, &numbered.order, changes),
        _ => push_data(file, &numbered.data, changes),
    }
}

fn push_int(file: &mut Vec<u8>, name: &str, number: usize) -> Option<()> {
    push_head(file, 3, name)?;
    push_u32(file, u32::try_from(number).ok()?)
}

fn push_short(file: &mut Vec<u8>, name: &str, number: i32) -> Option<()> {
    push_head(file, 2, name)?;
    let number = u16::try_from(number).ok()?;
    file.extend_from_slice(&number.to_be_bytes()).ok()
}

fn push_palette(file: &mut Vec<u8>, states: &[&str], order: &[u16], changes: &str) -> Option<()> {
    push_head(file, 10, "Palette")?;
    match change_of(changes, "palette") {
        Some(entries) => push_entries(file, entries)?,
        None => push_states(file, states, order)?,
    }
    file.push(0).ok()
}

/// Puts entries as `minecraft:stone=0`, whose names stand as they are.
fn push_entries(file: &mut Vec<u8>, entries: &str) -> Option<()> {
    for entry in entries.split(' ') {
        let (name, number) = entry.rsplit_once('=')?;
        push_head(file, 3, name)?;
        let number = number.parse::<i32>().ok()?;
        file.extend_from_slice(&number.to_be_bytes()).ok()?;
    }
    Some(())
}

fn push_states(file: &mut Vec<u8>, states: &[&str], order: &[u16]) -> Option<()> {
    for (place, number) in order.iter().enumerate() {
        let state = states.get(usize::from(*number))?;
        push_state(file, state)?;
        push_u32(file, u32::try_from(place).ok()?)?;
    }
    Some(())
}

/// Puts the type and the name of a palette entry, with its namespace.
fn push_state(file: &mut Vec<u8>, state: &str) -> Option<()> {
    if state.contains(':') {
        return push_head(file, 3, state);
    }
    let length = u16::try_from(state.len().wrapping_add(10)).ok()?;
    file.push(3).ok()?;
    file.extend_from_slice(&length.to_be_bytes()).ok()?;
    push_text(file, "minecraft:").ok()?;
    push_text(file, state).ok()
}

fn push_data(file: &mut Vec<u8>, data: &[u8], changes: &str) -> Option<()> {
    push_head(file, 7, "BlockData")?;
    if let Some(hex) = change_of(changes, "data") {
        return push_counted(file, hex);
    }
    push_u32(file, u32::try_from(data.len()).ok()?)?;
    file.extend_from_slice(data).ok()
}

/// Puts bytes behind their count. The digits stand one byte a word, without repetitions.
fn push_counted(file: &mut Vec<u8>, hex: &str) -> Option<()> {
    let count = hex.split(' ').filter(|word| word.len() == 2).count();
    push_u32(file, u32::try_from(count).ok()?)?;
    push_bytes_of(hex, file)
}

/// Puts the tags that stand behind the block data.
fn push_others(file: &mut Vec<u8>, changes: &str) -> Option<()> {
    for change in changes.split(" / ") {
        let (word, rest) = change.split_once(' ').unwrap_or((change, ""));
        push_other(file, word, rest)?;
    }
    Some(())
}

fn push_other(file: &mut Vec<u8>, word: &str, rest: &str) -> Option<()> {
    if word == "entities" {
        return push_entities(file, rest);
    }
    if word == "tail" {
        return push_bytes_of(rest, file);
    }
    if is_tag(word) && !LAYOUT.iter().any(|name| *name == word) {
        return push_changed(file, word, rest);
    }
    Some(())
}

/// Names of tags begin with a capital letter, and other changes don't.
fn is_tag(word: &str) -> bool {
    match word.as_bytes() {
        [first, ..] => first.is_ascii_uppercase(),
        [] => false,
    }
}
