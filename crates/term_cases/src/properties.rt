//! Properties of states.

use crate::bytes::put;
use crate::names::name_of;
use crate::states::state_of;
use case_lines::Answer;
use edit_terms::{Name, Properties};
use std::alloc::Global;

/// `properties PAIRS`: whether pairs `KEY=VALUE`, with blanks between, are properties. They and their copy, whose keys
/// are looked up, are put.
pub(crate) fn properties(alloc: Global, input: &str, answer: &mut Answer) -> Option<()> {
    let Some(properties) = Properties::from_pairs(pairs_of(alloc, input)?) else {
        answer.text("none");
        return Some(());
    };
    put_properties(&properties, answer);
    put_values(&properties.copy(alloc).ok()?, answer)
}

fn pairs_of(alloc: Global, input: &str) -> Option<Vec<(Name, Name)>> {
    let mut pairs = Vec::new(alloc);
    if !input.is_empty() {
        for word in input.split(' ') {
            pairs.push(pair_of(alloc, word)?).ok()?;
        }
    }
    Some(pairs)
}

fn pair_of(alloc: Global, word: &str) -> Option<(Name, Name)> {
    let (key, value) = word.split_once('=')?;
    Some((
        name_of(alloc, key.as_bytes())?,
        name_of(alloc, value.as_bytes())?,
    ))
}

/// Puts properties in brackets.
pub(crate) fn put_properties(properties: &Properties, answer: &mut Answer) {
    answer.text("[");
    for (place, pair) in properties.as_slice().iter().enumerate() {
        answer.text(if place == 0 { "" } else { "," });
        put_pair(pair, answer);
    }
    answer.text("]")
}

fn put_pair(pair: &(Name, Name), answer: &mut Answer) {
    answer.bytes(pair.0.as_slice());
    answer.text("=");
    answer.bytes(pair.1.as_slice())
}

/// Puts the value of each key, with a blank before it.
fn put_values(properties: &Properties, answer: &mut Answer) -> Option<()> {
    for pair in properties.as_slice() {
        answer.text(" ");
        put_value(properties, pair.0.as_slice(), answer)?;
    }
    Some(())
}

fn put_value(properties: &Properties, key: &[u8], answer: &mut Answer) -> Option<()> {
    match properties.get(key) {
        Some(value) => {
            answer.bytes(value);
            Some(())
        }
        None => {
            answer.fail();
            Some(())
        }
    }
}

/// `value TEXT KEY`: the value of a key of a state.
pub(crate) fn value(alloc: Global, input: &str, answer: &mut Answer) -> Option<()> {
    let (text, key) = input.rsplit_once(' ')?;
    let state = state_of(alloc, text)?;
    match state.properties().get(key.as_bytes()) {
        Some(value) => {
            answer.bytes(value);
            Some(())
        }
        None => {
            answer.text("none");
            Some(())
        }
    }
}

/// `many COUNT KEY VALUE`: whether so many pairs, with keys and values of these lengths, are properties. A key has at
/// least two bytes.
pub(crate) fn many(alloc: Global, input: &str, answer: &mut Answer) -> Option<()> {
    let (count, lengths) = input.split_once(' ')?;
    let (key, value) = lengths.split_once(' ')?;
    let pairs = many_pairs(
        alloc,
        count.parse().ok()?,
        key.parse().ok()?,
        value.parse().ok()?,
    )?;
    let made = Properties::from_pairs(pairs);
    answer.text(if made.is_some() { "made" } else { "none" });
    Some(())
}

fn many_pairs(alloc: Global, count: u8, key: u32, value: u32) -> Option<Vec<(Name, Name)>> {
    let mut pairs = Vec::new(alloc);
    for number in 0..count {
        pairs.push(numbered_pair(alloc, number, key, value)?).ok()?;
    }
    Some(pairs)
}

fn numbered_pair(alloc: Global, number: u8, key: u32, value: u32) -> Option<(Name, Name)> {
    let start = [b'a' + number / 26, b'a' + number % 26];
    Some((
        word_of(alloc, &start, key.saturating_sub(2))?,
        word_of(alloc, b"", value)?,
    ))
}

/// A word of a start and so many bytes `x`.
fn word_of(alloc: Global, start: &[u8], more: u32) -> Option<Name> {
    let mut word = Vec::from_slice(alloc, start).ok()?;
    for _ in 0..more {
        word.push(b'x').ok()?;
    }
    Some(Name::from_vec(word))
}
