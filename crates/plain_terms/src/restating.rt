//! A content with another state.
ghost use Rattle.std.specs.Prelude.{◌≡◌, option_map, IfOk};
ghost use Rattle.std.specs.Arc.{arc_value};
ghost use Rattle.edit_terms.specs.Pattern.{restated};
ghost use Rattle.edit_terms.specs.Transform.{turned_content};

use block_state::transform;
use edit_terms::{BlockState, Content, Entity, Transform};
use memory::Memory;
use std::alloc::Global;
use std::sync::Arc;

/// The old content with another state. The entity stays, shared, where the block's name does.
pub(crate) fn restated(old: &Content, state: BlockState) -> Result<Content, Memory>
    ensures { IfOk result (λ c. c ≡ restated old.now state) }
{
    if state.name() != old.state.name() {
        return Ok(Content {
            state,
            entity: None,
        });
    }
    let entity = entity_of(old)?;
    Ok(Content { state, entity })
}

/// The content with its state turned and flipped. The entity stays, shared.
pub(crate) fn turned(alloc: Global, t: &Transform, content: &Content) -> Result<Content, Memory>
    ensures { IfOk result (λ c. c ≡ turned_content t.now content.now) }
{
    let state = transform(alloc, &content.state, t)?;
    let entity = entity_of(content)?;
    Ok(Content { state, entity })
}

/// The entity once more, shared.
fn entity_of(content: &Content) -> Result<Option<Arc<Entity>>, Memory>
    ensures { IfOk result (λ entity. option_map arc_value entity ≡ content.now.entity) }
{
    Ok(match &content.entity {
        None => None,
        Some(entity) => Some(Arc::try_clone(entity)?),
    })
}
