//! Texts of states.

use crate::bytes::{bytes_of, put};
use crate::faults::put_state_fault;
use block_state::{read_state, write_state};
use case_lines::Answer;
use edit_terms::BlockState;
use std::alloc::Global;

/// The state of a text that is one.
pub(crate) fn state_of(alloc: Global, text: &str) -> Option<BlockState> {
    read_state(alloc, text.as_bytes()).ok()
}

/// Puts a state's written form.
pub(crate) fn put_state(alloc: Global, state: &BlockState, answer: &mut Answer) {
    match write_state(alloc, state) {
        Ok(text) => answer.bytes(&text),
        Err(_) => answer.fail(),
    }
}

/// `state TEXT`: the written form of the state of a text, or its fault.
pub(crate) fn state(alloc: Global, input: &str, answer: &mut Answer) -> Option<()> {
    match read_state(alloc, &bytes_of(alloc, input)?) {
        Ok(state) => {
            put_state(alloc, &state, answer);
            Some(())
        }
        Err(fault) => {
            put_state_fault(alloc, fault, answer);
            Some(())
        }
    }
}

/// `length TEXT`: how many bytes that written form has, or the fault.
pub(crate) fn length(alloc: Global, input: &str, answer: &mut Answer) -> Option<()> {
    match read_state(alloc, &bytes_of(alloc, input)?) {
        Ok(state) => {
            answer.number(write_state(alloc, &state).ok()?.len());
            Some(())
        }
        Err(fault) => {
            put_state_fault(alloc, fault, answer);
            Some(())
        }
    }
}

/// `air TEXT`: whether a state is air. Its copy is as well.
pub(crate) fn air(alloc: Global, input: &str, answer: &mut Answer) -> Option<()> {
    let state = state_of(alloc, input)?;
    let is_air = state.is_air();
    if state.copy(alloc).ok()?.is_air() != is_air {
        return None;
    }
    answer.text(if is_air { "air" } else { "no air" });
    Some(())
}
