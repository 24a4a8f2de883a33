//! Bytes as hexadecimal digits, in words of whole bytes. `3*0900` stands for three times these bytes.

use case_lines::Answer;

/// Puts the bytes behind others.
pub fn push_bytes_of(hex: &str, bytes: &mut Vec<u8>) -> Option<()> {
    for word in hex.split(' ') {
        push_repeated(word, bytes)?;
    }
    Some(())
}

fn push_repeated(word: &str, bytes: &mut Vec<u8>) -> Option<()> {
    let Some((count, digits)) = word.split_once('*') else {
        return push_word(word, bytes);
    };
    for _ in 0..count.parse::<u32>().ok()? {
        push_word(digits, bytes)?;
    }
    Some(())
}

fn push_word(digits: &str, bytes: &mut Vec<u8>) -> Option<()> {
    let mut high = None;
    for digit in digits.bytes() {
        high = next_half(high, half_of(digit)?, bytes)?;
    }
    match high {
        None => Some(()),
        Some(_) => None,
    }
}

/// Takes a digit, and puts the byte that it ends.
fn next_half(high: Option<u8>, low: u8, bytes: &mut Vec<u8>) -> Option<Option<u8>> {
    let Some(high) = high else {
        return Some(Some(low));
    };
    bytes.push(high.wrapping_mul(16).wrapping_add(low)).ok()?;
    Some(None)
}

fn half_of(digit: u8) -> Option<u8> {
    match digit {
        b'0'..=b'9' => Some(digit - b'0'),
        b'a'..=b'f' => Some(digit - b'a' + 10),
        _ => None,
    }
}

/// Shows bytes, and no bytes as `empty`.
pub fn push_hex(bytes: &[u8], answer: &mut Answer) {
    if bytes.is_empty() {
        answer.text("empty");
        return;
    }
    answer.text("hex ");
    push_digits(bytes, answer)
}

/// Puts the hexadecimal digits of bytes behind an answer.
pub fn push_digits(bytes: &[u8], answer: &mut Answer) {
    for byte in bytes {
        push_digit(*byte / 16, answer);
        push_digit(*byte % 16, answer);
    }
}

fn push_digit(value: u8, answer: &mut Answer) {
    let Some(digit) = b"0123456789abcdef".get(usize::from(value)) else {
        answer.fail();
        return;
    };
    answer.byte(*digit)
}
