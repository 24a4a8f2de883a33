//! Counts of states.

use crate::states::push_short;
use crate::worlds::world_of;
use case_lines::Answer;
use edit_terms::Grid;
use state_counts::count_states;
use std::alloc::Global;

/// `WORLD`: its states, each with how many blocks have it.
pub(crate) fn answer(alloc: Global, input: &str, answer: &mut Answer) -> Option<()> {
    push_census(alloc, answer, &world_of(alloc, input)?);
    Some(())
}

/// Appends the states of a world.
pub(crate) fn push_census(alloc: Global, answer: &mut Answer, world: &Grid) {
    let mut is_first = true;
    let Some(counts) = count_states(alloc, world).ok() else {
        answer.fail();
        return;
    };
    for (text, count) in &counts {
        push_counted(answer, is_first, text, *count);
        is_first = false;
    }
}

/// Appends a state and its count, behind a comma where it isn't the first.
fn push_counted(answer: &mut Answer, is_first: bool, text: &[u8], count: u64) {
    if !is_first {
        answer.text(", ");
    }
    push_short(answer, text);
    answer.text(" ");
    answer.number(count)
}
