//! Named tags, and the changes of a world's tags.
//!
//! `without NAME ..` leaves tags out, `twice NAME ..` has them twice, and `NAME TYPE PAYLOAD` has another one, the type and
//! the payload in hexadecimal digits. A name that the layout doesn't have stands behind the block data.

use crate::hex::push_bytes_of;
use case_lines::push_text;

/// What stands behind the first change that begins with this word.
pub fn change_of<'a>(changes: &'a str, word: &str) -> Option<&'a str> {
    for change in changes.split(" / ") {
        let (first, rest) = change.split_once(' ').unwrap_or((change, ""));
        if first == word {
            return Some(rest);
        }
    }
    None
}

/// Whether the change of this word names a tag.
pub fn is_named(changes: &str, word: &str, name: &str) -> bool {
    change_of(changes, word)
        .unwrap_or("")
        .split(' ')
        .any(|named| named == name)
}

/// Puts a tag's type and name.
pub fn push_head(file: &mut Vec<u8>, kind: u8, name: &str) -> Option<()> {
    file.push(kind).ok()?;
    push_string(file, name)
}

/// Puts a text behind its length.
pub fn push_string(file: &mut Vec<u8>, text: &str) -> Option<()> {
    let length = u16::try_from(text.len()).ok()?;
    file.extend_from_slice(&length.to_be_bytes()).ok()?;
    push_text(file, text).ok()
}

pub fn push_u32(file: &mut Vec<u8>, number: u32) -> Option<()> {
    file.extend_from_slice(&number.to_be_bytes()).ok()
}

/// Puts a tag of another type and payload.
pub fn push_changed(file: &mut Vec<u8>, name: &str, change: &str) -> Option<()> {
    let (kind, payload) = change.split_once(' ')?;
    push_bytes_of(kind, file)?;
    push_string(file, name)?;
    push_bytes_of(payload, file)
}

/// Puts three numbers as an array.
pub fn push_ints(file: &mut Vec<u8>, name: &str, numbers: &[i32; 3]) -> Option<()> {
    push_head(file, 11, name)?;
    push_u32(file, 3)?;
    for number in numbers {
        file.extend_from_slice(&number.to_be_bytes()).ok()?;
    }
    Some(())
}
