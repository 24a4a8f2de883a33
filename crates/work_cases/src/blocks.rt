//! The blocks of a world as a text.

use crate::states::push_state;
use case_lines::Answer;
use edit_terms::{Entity, Grid, Pos};
use std::alloc::Global;

/// Appends the blocks of a world in index order, as runs of equal ones.
pub(crate) fn push_blocks(alloc: Global, answer: &mut Answer, world: &Grid) -> Option<()> {
    let mut first = 0;
    for index in 0..world.area().volume() {
        if is_same(world, first, index) == Some(false) {
            push_run(alloc, answer, world, first, index)?;
            answer.text(" ");
            first = index;
        }
    }
    push_run(alloc, answer, world, first, world.area().volume())
}

/// Two blocks of a world have the same state and the same entity.
fn is_same(world: &Grid, one: u32, other: u32) -> Option<bool> {
    let one = world.area().position(one)?;
    let other = world.area().position(other)?;
    let is_same_state = *world.get(one)? == *world.get(other)?;
    Some(is_same_state && is_same_entity(world.entity(one), world.entity(other)))
}

/// Two blocks of two worlds have the same state and the same entity.
pub(crate) fn is_same_block(one: &Grid, other: &Grid, p: Pos) -> Option<bool> {
    let is_same_state = *one.get(p)? == *other.get(p)?;
    Some(is_same_state && is_same_entity(one.entity(p), other.entity(p)))
}

fn is_same_entity(one: Option<&Entity>, other: Option<&Entity>) -> bool {
    match (one, other) {
        (None, None) => true,
        (Some(one), Some(other)) => *one == *other,
        _ => false,
    }
}

/// Appends the run of blocks from one index to another.
fn push_run(alloc: Global, answer: &mut Answer, world: &Grid, first: u32, end: u32) -> Option<()> {
    push_block(alloc, answer, world, world.area().position(first)?);
    let count = end.saturating_sub(first);
    if count == 1 {
        return Some(());
    }
    answer.text("*");
    answer.number(count);
    Some(())
}

/// Appends the block at a position.
pub(crate) fn push_block(alloc: Global, answer: &mut Answer, world: &Grid, p: Pos) {
    match world.get(p) {
        Some(state) => push_state(alloc, answer, state),
        None => answer.fail(),
    }
    if let Some(entity) = world.entity(p) {
        push_entity(answer, entity);
    }
}

/// Appends an entity's tags.
fn push_entity(answer: &mut Answer, entity: &Entity) {
    answer.text("{");
    answer.bytes(entity.before());
    answer.text("/");
    answer.bytes(entity.after());
    answer.text("}")
}
