//! Block states as texts.

use block_state::write_state;
use case_lines::Answer;
use edit_terms::BlockState;
use std::alloc::Global;

const USUAL: &[u8] = b"minecraft:";

/// Appends a state, without the usual namespace.
pub(crate) fn push_state(alloc: Global, answer: &mut Answer, state: &BlockState) {
    let Some(text) = write_state(alloc, state).ok() else {
        answer.fail();
        return;
    };
    push_short(answer, &text)
}

/// Appends a state's text without the usual namespace.
pub(crate) fn push_short(answer: &mut Answer, text: &[u8]) {
    match text.strip_prefix(USUAL) {
        None => answer.bytes(text),
        Some(rest) => answer.bytes(rest),
    }
}
