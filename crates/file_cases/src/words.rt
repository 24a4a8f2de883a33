//! Bytes of named tags by words, one after the other.
//!
//! `int:Version=2` is a named tag, `int=2` the payload alone, as an item of a list has it. The types are `byte`,
//! `short`, `int`, `long`, `float` and `double` (bits in hexadecimal), `bytes` (in hexadecimal), `string`, `ints` and
//! `longs` (joined by commas), `list:NAME=TYPE*COUNT`, whose items follow as words, and `compound:NAME{`, whose tags
//! follow up to `}`. `{` begins a compound in a list. `xHEX` stands for bytes as they are, and `N*WORD` for N times the
//! word.

use crate::pieces::put_piece;
use std::alloc::Global;

/// The bytes of the words.
pub fn spell(alloc: Global, words: &str) -> Option<Vec<u8>> {
    let mut out = Vec::new(alloc);
    put_words(alloc, &mut out, words)?;
    Some(out)
}

/// Puts the bytes of words behind what is there.
pub fn put_words(alloc: Global, out: &mut Vec<u8>, words: &str) -> Option<()> {
    for word in words.split(' ') {
        put_word(alloc, out, word)?;
    }
    Some(())
}

fn put_word(alloc: Global, out: &mut Vec<u8>, word: &str) -> Option<()> {
    match repeated(word) {
        None => put_piece(alloc, out, word),
        Some((count, word)) => put_times(alloc, out, count, word),
    }
}

/// How often a word is to be put, where it says so.
fn repeated(word: &str) -> Option<(u32, &str)> {
    let (count, rest) = word.split_once('*')?;
    Some((count.parse::<u32>().ok()?, rest))
}

fn put_times(alloc: Global, out: &mut Vec<u8>, count: u32, word: &str) -> Option<()> {
    for _ in 0..count {
        put_tag(alloc, out, word)?;
    }
    Some(())
}

/// Puts the bytes of one word that names no piece of a schematic.
pub fn put_tag(alloc: Global, out: &mut Vec<u8>, word: &str) -> Option<()> {
    if let Some(digits) = word.strip_prefix("x") {
        return put_hex(alloc, out, digits);
    }
    match word {
        "" | "{" => Some(()),
        "}" => out.push(0).ok(),
        _ => put_typed(alloc, out, word),
    }
}

/// A tag with its name, or a payload alone.
fn put_typed(alloc: Global, out: &mut Vec<u8>, word: &str) -> Option<()> {
    match named(word) {
        None => {
            let (kind, value) = word.split_once('=')?;
            put_payload(alloc, out, kind, value)
        }
        Some((byte, kind, rest)) => put_named(alloc, out, byte, kind, rest),
    }
}

/// The type byte, the type's word and the rest of a named tag's word.
fn named(word: &str) -> Option<(u8, &str, &str)> {
    let (kind, rest) = word.split_once(':')?;
    Some((type_of(kind)?, kind, rest))
}

fn put_named(alloc: Global, out: &mut Vec<u8>, byte: u8, kind: &str, rest: &str) -> Option<()> {
    let (name, value) = name_and_value(rest)?;
    out.push(byte).ok()?;
    put_text(out, name)?;
    put_payload(alloc, out, kind, value)
}

fn name_and_value(rest: &str) -> Option<(&str, &str)> {
    match rest.strip_suffix("{") {
        Some(name) => Some((name, "")),
        None => rest.rsplit_once('='),
    }
}

/// The type byte of a type's word.
fn type_of(kind: &str) -> Option<u8> {
    match kind {
        "byte" => Some(1),
        "short" => Some(2),
        "int" => Some(3),
        "long" => Some(4),
        "float" => Some(5),
        "double" => Some(6),
        "bytes" => Some(7),
        "string" => Some(8),
        "list" => Some(9),
        "compound" => Some(10),
        "ints" => Some(11),
        "longs" => Some(12),
        _ => None,
    }
}

fn put_payload(alloc: Global, out: &mut Vec<u8>, kind: &str, value: &str) -> Option<()> {
    match kind {
        "byte" => put(out, &value.parse::<i8>().ok()?.to_be_bytes()),
        "short" => put(out, &value.parse::<i16>().ok()?.to_be_bytes()),
        "int" => put(out, &value.parse::<i32>().ok()?.to_be_bytes()),
        "long" => put(out, &value.parse::<i64>().ok()?.to_be_bytes()),
        "compound" => Some(()),
        "string" => put_text(out, value),
        "list" => put_list(out, value),
        _ => put_many(alloc, out, kind, value),
    }
}

fn put_many(alloc: Global, out: &mut Vec<u8>, kind: &str, value: &str) -> Option<()> {
    match kind {
        "float" | "double" => put_hex(alloc, out, value),
        "bytes" => {
            put_count(out, value.len() / 2)?;
            put_hex(alloc, out, value)
        }
        "ints" => put_ints(out, value),
        "longs" => put_longs(out, value),
        _ => None,
    }
}

fn put(out: &mut Vec<u8>, bytes: &[u8]) -> Option<()> {
    out.extend_from_slice(bytes).ok()
}

fn put_count(out: &mut Vec<u8>, count: usize) -> Option<()> {
    put(out, &i32::try_from(count).ok()?.to_be_bytes())
}

/// A text behind its length.
fn put_text(out: &mut Vec<u8>, text: &str) -> Option<()> {
    put(out, &u16::try_from(text.len()).ok()?.to_be_bytes())?;
    put(out, text.as_bytes())
}

fn put_hex(alloc: Global, out: &mut Vec<u8>, digits: &str) -> Option<()> {
    put(out, &hex::decode(alloc, digits).ok()?)
}

/// The element type and the count of a list, `TYPE*COUNT`. The type is a word or a number.
fn put_list(out: &mut Vec<u8>, value: &str) -> Option<()> {
    let (kind, count) = value.split_once('*')?;
    let byte = match type_of(kind) {
        Some(byte) => byte,
        None => kind.parse::<u8>().ok()?,
    };
    out.push(byte).ok()?;
    put(out, &count.parse::<i32>().ok()?.to_be_bytes())
}

fn put_ints(out: &mut Vec<u8>, value: &str) -> Option<()> {
    put_count(out, numbers_in(value))?;
    if value.is_empty() {
        return Some(());
    }
    for number in value.split(',') {
        put(out, &number.parse::<i32>().ok()?.to_be_bytes())?;
    }
    Some(())
}

fn put_longs(out: &mut Vec<u8>, value: &str) -> Option<()> {
    put_count(out, numbers_in(value))?;
    if value.is_empty() {
        return Some(());
    }
    for number in value.split(',') {
        put(out, &number.parse::<i64>().ok()?.to_be_bytes())?;
    }
    Some(())
}

/// How many numbers a text joins by commas.
fn numbers_in(value: &str) -> usize {
    if value.is_empty() {
        return 0;
    }
    value.split(',').count()
}
