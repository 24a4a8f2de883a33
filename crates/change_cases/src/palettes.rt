//! Palettes of numbers and of contents.
//!
//! `palette NUMBER ..` tells the numbers that the entries get, and behind `;` the entries. `contents LETTERS` is the same
//! of contents. `palette-find ENTRIES / NUMBER ..` tells the number of each of the latter, and `palette-entry` the entry
//! of each. `palette-len NUMBER ..` tells how many entries there are. `palette-many COUNT` is of so many entries, each of
//! which is found again.

use crate::boxes::tell_between;
use crate::contents::{content_of, tell_content};
use block_palette::Palette;
use case_lines::Answer;
use edit_terms::Content;
use std::alloc::Global;

/// More entries than any case has.
const TOO_MANY: u32 = 1_000_000;

pub fn answer(alloc: Global, kind: &str, input: &str, answer: &mut Answer) -> Option<()> {
    match kind {
        "palette" => answer_numbers(alloc, input, answer),
        "contents" => answer_contents(alloc, input, answer),
        "palette-find" | "palette-entry" => answer_words(alloc, kind, input, answer),
        "palette-len" => {
            tell_len(answer, &palette_of(alloc, input)?);
            Some(())
        }
        "palette-many" => answer_many(alloc, input, answer),
        _ => None,
    }
}

/// Puts a number into the palette, and tells which it has there.
fn number(palette: &mut Palette<u32>, entry: u32) -> Option<u32> {
    if palette.len() > TOO_MANY {
        return None;
    }
    palette.number(entry).ok()
}

fn answer_numbers(alloc: Global, input: &str, answer: &mut Answer) -> Option<()> {
    let mut palette = Palette::new(alloc);
    for word in input.split(' ') {
        tell_between(answer, " ");
        answer.number(number(&mut palette, word.parse::<u32>().ok()?)?);
    }
    answer.text(";");
    for place in 0..palette.len() {
        answer.text(" ");
        answer.number(*palette.entry(place)?);
    }
    Some(())
}

fn number_content(palette: &mut Palette<Content>, content: Content) -> Option<u32> {
    if palette.len() > TOO_MANY {
        return None;
    }
    palette.number(content).ok()
}

fn answer_contents(alloc: Global, input: &str, answer: &mut Answer) -> Option<()> {
    let mut palette = Palette::new(alloc);
    for letter in input.as_bytes() {
        tell_between(answer, " ");
        let place = number_content(&mut palette, content_of(alloc, *letter)?)?;
        answer.number(place);
    }
    answer.text("; ");
    for place in 0..palette.len() {
        tell_content(answer, palette.entry(place)?);
    }
    Some(())
}

fn palette_of(alloc: Global, words: &str) -> Option<Palette<u32>> {
    let mut palette = Palette::new(alloc);
    if words.is_empty() {
        return Some(palette);
    }
    for word in words.split(' ') {
        number(&mut palette, word.parse::<u32>().ok()?)?;
    }
    Some(palette)
}

fn answer_words(alloc: Global, kind: &str, input: &str, answer: &mut Answer) -> Option<()> {
    let (entries, asked) = input.split_once("/ ")?;
    let palette = palette_of(alloc, entries.trim_end())?;
    for word in asked.split(' ') {
        tell_between(answer, " ");
        let asked = word.parse::<u32>().ok()?;
        let found = match kind {
            "palette-find" => palette.find(&asked),
            _ => palette.entry(asked).copied(),
        };
        tell_found(answer, found);
    }
    Some(())
}

fn tell_len(answer: &mut Answer, palette: &Palette<u32>) {
    answer.number(palette.len());
    if palette.is_empty() {
        answer.text(", empty");
    }
}

fn tell_found(answer: &mut Answer, found: Option<u32>) {
    match found {
        None => answer.text("none"),
        Some(number) => answer.number(number),
    }
}

/// The entry of a place of a large palette.
fn entry_at(place: u32) -> u32 {
    place ^ 0x5a5a
}

fn answer_many(alloc: Global, input: &str, answer: &mut Answer) -> Option<()> {
    let count = input.parse::<u32>().ok()?;
    let mut palette = Palette::new(alloc);
    for place in 0..count {
        number(&mut palette, entry_at(place))?;
    }
    answer.number(palette.len());
    answer.text(" entries, ");
    answer.number(found_again(&mut palette, count));
    answer.text(" found again, 1000000 ");
    tell_found(answer, palette.find(&1_000_000));
    Some(())
}

/// How many entries of a large palette have their number.
fn found_again(palette: &mut Palette<u32>, count: u32) -> u32 {
    let mut found = 0_u32;
    for place in 0..count {
        if is_again(palette, place) {
            found = found.saturating_add(1);
        }
    }
    found
}

fn is_again(palette: &mut Palette<u32>, place: u32) -> bool {
    let entry = entry_at(place);
    palette.find(&entry) == Some(place)
        && palette.entry(place) == Some(&entry)
        && number(palette, entry) == Some(place)
}
