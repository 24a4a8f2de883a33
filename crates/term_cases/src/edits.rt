//! What values of patterns make of states.

use crate::patterns::pattern_of;
use crate::states::{put_state, state_of};
use block_state::apply;
use case_lines::Answer;
use edit_terms::{BlockState, Value};
use std::alloc::Global;

/// `edit TEXT VALUE`: the state that the value of a pattern, which is no clipboard, puts in the place of a state.
pub(crate) fn edit(alloc: Global, input: &str, answer: &mut Answer) -> Option<()> {
    let (text, value) = input.rsplit_once(' ')?;
    let old = state_of(alloc, text)?;
    put_state(alloc, &edited(alloc, &old, value)?, answer);
    Some(())
}

/// The state after the first value of a pattern's text.
fn edited(alloc: Global, old: &BlockState, text: &str) -> Option<BlockState> {
    let pattern = pattern_of(alloc, text)?;
    applied(alloc, old, &pattern.entries.as_slice().first()?.value)
}

fn applied(alloc: Global, old: &BlockState, value: &Value) -> Option<BlockState> {
    match value {
        Value::Clipboard => None,
        _ => apply(alloc, old, value).ok(),
    }
}
