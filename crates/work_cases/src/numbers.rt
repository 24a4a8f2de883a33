//! Numbers before a text.

/// The number behind a word at a text's beginning, or the usual one, and the text behind it.
pub(crate) fn number_behind<'a>(text: &'a str, word: &str, usual: u64) -> Option<(u64, &'a str)> {
    match text.strip_prefix(word) {
        None => Some((usual, text)),
        Some(rest) => number_before(rest),
    }
}

/// The number at a text's beginning, and the text behind it.
pub(crate) fn number_before(text: &str) -> Option<(u64, &str)> {
    let (number, rest) = text.split_once(' ')?;
    Some((number.parse().ok()?, rest))
}
