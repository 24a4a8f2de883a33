//! Terms from their texts.

use block_state::read_state;
use edit_terms::{BlockState, Content, Entity, Mask, Pattern};
use mask_syntax::read_mask;
use pattern_syntax::read_pattern;
use std::alloc::Global;
use std::sync::Arc;

pub(crate) fn state(alloc: Global, text: &[u8]) -> Option<BlockState> {
    read_state(alloc, text).ok()
}

pub(crate) fn mask(alloc: Global, text: &[u8]) -> Option<Mask> {
    if text.len() > 100 {
        return None;
    }
    read_mask(alloc, text).ok()
}

pub(crate) fn pattern(alloc: Global, text: &[u8]) -> Option<Pattern> {
    if text.len() > 100 {
        return None;
    }
    read_pattern(alloc, text).ok()
}

pub(crate) fn entity(alloc: Global, before: &[u8], after: &[u8]) -> Option<Arc<Entity>> {
    let before = Vec::from_slice(alloc, before).ok()?;
    let after = Vec::from_slice(alloc, after).ok()?;
    Arc::new(alloc, Entity::new(before, after)).ok()
}

/// A state with an entity of these tags.
pub(crate) fn content(alloc: Global, text: &[u8], before: &[u8], after: &[u8]) -> Option<Content> {
    let state = state(alloc, text)?;
    let entity = Some(entity(alloc, before, after)?);
    Some(Content { state, entity })
}
