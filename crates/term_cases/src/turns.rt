//! Turned and flipped states.

use crate::states::{put_state, state_of};
use block_state::transform;
use case_lines::Answer;
use edit_terms::Transform;
use std::alloc::Global;

/// `turn TEXT TRANSFORM`: the state of a text after a transform, which is `x` for a flip along x, then `y` for one along
/// y, then the number of quarter turns behind them, as in `x2`.
pub(crate) fn turn(alloc: Global, input: &str, answer: &mut Answer) -> Option<()> {
    let (text, word) = input.rsplit_once(' ')?;
    let state = state_of(alloc, text)?;
    let turned = transform(alloc, &state, &transform_of(word)?).ok()?;
    put_state(alloc, &turned, answer);
    Some(())
}

fn transform_of(word: &str) -> Option<Transform> {
    let (flip_x, word) = without(word, 'x');
    let (flip_y, word) = without(word, 'y');
    Some(Transform {
        flip_x,
        flip_y,
        turns: word.parse().ok()?,
    })
}

/// Whether a word begins with this letter, and what stands behind it.
fn without(word: &str, letter: char) -> (bool, &str) {
    match word.strip_prefix(letter) {
        Some(rest) => (true, rest),
        None => (false, word),
    }
}
