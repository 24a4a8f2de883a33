//! Contents of blocks: a state and perhaps an entity, which is written `BEFORE,AFTER`, or `-` where there is none.

use crate::bytes::put;
use crate::equal::put_same;
use crate::states::{put_state, state_of};
use case_lines::Answer;
use edit_terms::{Content, Entity};
use std::alloc::Global;
use std::sync::Arc;

/// `contents TEXT ENTITY TEXT ENTITY`: whether two contents are equal.
pub(crate) fn contents(alloc: Global, input: &str, answer: &mut Answer) -> Option<()> {
    let (one, rest) = input.split_once(' ')?;
    let (entity, rest) = rest.split_once(' ')?;
    let one = content_of(alloc, one, entity)?;
    let (other, entity) = rest.split_once(' ')?;
    let other = content_of(alloc, other, entity)?;
    let is_same = one == other;
    if is_same != (other == one) || is_same != (one.copy(alloc).ok()? == other) {
        return None;
    }
    put_same(is_same, answer);
    Some(())
}

/// `content TEXT ENTITY`: what the copy of the copy of a content is.
pub(crate) fn content(alloc: Global, input: &str, answer: &mut Answer) -> Option<()> {
    let (text, entity) = input.split_once(' ')?;
    let copied = content_of(alloc, text, entity)?.copy(alloc).ok()?;
    let copied = copied.copy(alloc).ok()?;
    put_state(alloc, &copied.state, answer);
    match &copied.entity {
        Some(entity) => {
            put_entity(entity, answer);
            Some(())
        }
        None => {
            answer.text(" -");
            Some(())
        }
    }
}

fn content_of(alloc: Global, text: &str, entity: &str) -> Option<Content> {
    let state = state_of(alloc, text)?;
    let entity = match entity.split_once(',') {
        Some((before, after)) => Some(entity_of(alloc, before, after)?),
        None => None,
    };
    Some(Content { state, entity })
}

fn entity_of(alloc: Global, before: &str, after: &str) -> Option<Arc<Entity>> {
    let before = Vec::from_slice(alloc, before.as_bytes()).ok()?;
    let after = Vec::from_slice(alloc, after.as_bytes()).ok()?;
    Arc::new(alloc, Entity::new(before, after)).ok()
}

fn put_entity(entity: &Entity, answer: &mut Answer) {
    answer.text(" ");
    answer.bytes(entity.before());
    answer.text(",");
    answer.bytes(entity.after())
}
