//! The bytes that an input stands for.

use std::alloc::Global;

/// The longest text that is read as a mask, a pattern or a script.
pub(crate) const MOST_BYTES: usize = 1_048_576;

/// The bytes that an input stands for: those that it has, but for what a `\` begins.
pub(crate) fn bytes_of(alloc: Global, input: &str) -> Option<Vec<u8>> {
    let mut bytes = Vec::new(alloc);
    let mut parts = input.split('\\');
    put(&mut bytes, parts.next()?)?;
    for part in parts {
        put_part(&mut bytes, part)?;
    }
    Some(bytes)
}

/// Puts what stands behind a `\` and before the next: a byte, or a repeated text, and what follows it.
fn put_part(bytes: &mut Vec<u8>, part: &str) -> Option<()> {
    let mut rest = part.chars();
    match rest.next()? {
        'n' => put_both(bytes, b'\n', rest.as_str()),
        'r' => put_both(bytes, b'\r', rest.as_str()),
        't' => put_both(bytes, b'\t', rest.as_str()),
        'x' => put_hex(bytes, rest.as_str()),
        '(' => put_text_times(bytes, rest.as_str()),
        '[' => put_byte_times(bytes, rest.as_str()),
        _ => None,
    }
}

/// Puts a byte of two hexadecimal digits, and what follows them.
fn put_hex(bytes: &mut Vec<u8>, part: &str) -> Option<()> {
    let (digits, rest) = part.split_at_checked(2)?;
    put_both(bytes, byte_of(digits)?, rest)
}

fn byte_of(digits: &str) -> Option<u8> {
    u8::from_str_radix(digits, 16).ok()
}

/// Puts the text of `N*TEXT)` so many times, and what follows.
fn put_text_times(bytes: &mut Vec<u8>, part: &str) -> Option<()> {
    let (count, part) = part.split_once('*')?;
    let (text, rest) = part.split_once(')')?;
    put_times(bytes, count.parse::<u32>().ok()?, text.as_bytes())?;
    put(bytes, rest)
}

/// Puts the byte of `N*HH]` so many times, and what follows.
fn put_byte_times(bytes: &mut Vec<u8>, part: &str) -> Option<()> {
    let (count, part) = part.split_once('*')?;
    let (digits, rest) = part.split_once(']')?;
    put_times(bytes, count.parse::<u32>().ok()?, &[byte_of(digits)?])?;
    put(bytes, rest)
}

fn put_times(bytes: &mut Vec<u8>, count: u32, text: &[u8]) -> Option<()> {
    for _ in 0..count {
        bytes.extend_from_slice(text).ok()?;
    }
    Some(())
}

fn put_both(bytes: &mut Vec<u8>, byte: u8, text: &str) -> Option<()> {
    bytes.push(byte).ok()?;
    put(bytes, text)
}

/// Puts a text behind what is there.
pub(crate) fn put(bytes: &mut Vec<u8>, text: &str) -> Option<()> {
    bytes.extend_from_slice(text.as_bytes()).ok()
}
