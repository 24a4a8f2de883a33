//! Which states, names and lists are equal.

use crate::bytes::put;
use crate::names::name_of;
use crate::states::{put_state, state_of};
use case_lines::Answer;
use edit_terms::{BlockName, BlockState, Items, Name};
use std::alloc::Global;

/// `same TEXT TEXT`: whether two states are equal. Their copies are as well.
pub(crate) fn states(alloc: Global, input: &str, answer: &mut Answer) -> Option<()> {
    let (one, other) = input.split_once(' ')?;
    let one = state_of(alloc, one)?;
    let other = state_of(alloc, other)?;
    let is_same = one == other;
    if is_same != (other == one) || is_same != are_copies_same(alloc, &one, &other)? {
        return None;
    }
    put_same(is_same, answer);
    Some(())
}

fn are_copies_same(alloc: Global, one: &BlockState, other: &BlockState) -> Option<bool> {
    Some(one.copy(alloc).ok()? == other.copy(alloc).ok()?)
}

/// `copy TEXT`: the copy of the copy of a state that was made of a name and properties, to which the copy is equal.
pub(crate) fn copied(alloc: Global, input: &str, answer: &mut Answer) -> Option<()> {
    let own = own_of(alloc, &state_of(alloc, input)?)?;
    let copied = own.copy(alloc).ok()?;
    if copied != own {
        return None;
    }
    put_state(alloc, &copied.copy(alloc).ok()?, answer);
    Some(())
}

/// `share TEXT`: such a state after it was shared, copied and shared again.
pub(crate) fn shared(alloc: Global, input: &str, answer: &mut Answer) -> Option<()> {
    let own = own_of(alloc, &state_of(alloc, input)?)?;
    let shared = own.share(alloc).ok()?;
    let again = shared.copy(alloc).ok()?.share(alloc).ok()?;
    put_state(alloc, &again, answer);
    Some(())
}

/// A state that is made of the name and the properties of another.
fn own_of(alloc: Global, state: &BlockState) -> Option<BlockState> {
    let name = BlockName::from_name(name_of(alloc, state.name())?)?;
    Some(BlockState::new(name, state.properties().copy(alloc).ok()?))
}

/// `names NAME NAME`: whether two names are equal.
pub(crate) fn names(alloc: Global, input: &str, answer: &mut Answer) -> Option<()> {
    let (one, other) = input.split_once(' ')?;
    let one = name_of(alloc, one.as_bytes())?;
    let other = name_of(alloc, other.as_bytes())?;
    let is_same = one == other;
    if is_same != (other == one) || is_same != are_copied_names_same(alloc, &one, &other)? {
        return None;
    }
    put_same(is_same, answer);
    Some(())
}

fn are_copied_names_same(alloc: Global, one: &Name, other: &Name) -> Option<bool> {
    Some(one.copy(alloc).ok()? == other.copy(alloc).ok()?)
}

/// Puts `same` or `other`.
pub(crate) fn put_same(is_same: bool, answer: &mut Answer) {
    answer.text(if is_same { "same" } else { "other" })
}

/// `numbers NUMBER ..`: the items of a list of numbers.
pub(crate) fn numbers(alloc: Global, input: &str, answer: &mut Answer) -> Option<()> {
    let numbers = numbers_of(alloc, input)?;
    for number in numbers.as_slice() {
        answer.number(*number);
        answer.text(";");
    }
    Some(())
}

fn numbers_of(alloc: Global, input: &str) -> Option<Items<u32>> {
    let mut numbers = Vec::new(alloc);
    for word in input.split(' ') {
        numbers.push(word.parse::<u32>().ok()?).ok()?;
    }
    Some(Items::from_vec(numbers))
}
