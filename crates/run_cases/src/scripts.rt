//! The text of a script: lines with ` | ` between them, of which `3 x LINE` stands three times, and `3 x LINE & LINE` are
//! both lines three times; or `hex ..`, its bytes.

use crate::hex::push_bytes_of;
use case_lines::push_text;
use std::alloc::Global;

/// The file that a script's text stands for. No text stands for no bytes.
pub fn file_of(alloc: Global, text: &str) -> Option<Vec<u8>> {
    let mut file = Vec::new(alloc);
    match text.strip_prefix("hex ") {
        Some(hex) => push_bytes_of(hex, &mut file)?,
        None => push_script(&mut file, text)?,
    }
    Some(file)
}

fn push_script(file: &mut Vec<u8>, text: &str) -> Option<()> {
    if text.is_empty() {
        return Some(());
    }
    for part in text.split(" | ") {
        push_lines(file, part)?;
    }
    Some(())
}

fn push_lines(file: &mut Vec<u8>, part: &str) -> Option<()> {
    let (count, lines) = repeated(part);
    for _ in 0..count {
        push_each(file, lines)?;
    }
    Some(())
}

fn push_each(file: &mut Vec<u8>, lines: &str) -> Option<()> {
    for line in lines.split(" & ") {
        push_text(file, line).ok()?;
        file.push(b'\n').ok()?;
    }
    Some(())
}

/// How often lines stand, and the lines.
fn repeated(part: &str) -> (u32, &str) {
    let Some((count, line)) = part.split_once(" x ") else {
        return (1, part);
    };
    match count.parse::<u32>() {
        Ok(count) => (count, line),
        Err(_) => (1, part),
    }
}
