//! Random words.

use case_lines::Answer;
use edit_terms::random_word;

/// `word SEED STREAM PLACE`: the word at a place of a seed's stream.
pub(crate) fn word(input: &str, answer: &mut Answer) -> Option<()> {
    let (seed, rest) = input.split_once(' ')?;
    let (stream, place) = rest.split_once(' ')?;
    let word = word_at(
        seed.parse().ok()?,
        stream.parse().ok()?,
        place.parse().ok()?,
    )?;
    answer.number(word);
    Some(())
}

/// The word at a place. None for a place of no position.
fn word_at(seed: u64, stream: u64, place: u128) -> Option<u32> {
    if place < 295_147_905_179_352_825_856 {
        Some(random_word(seed, stream, place))
    } else {
        None
    }
}
