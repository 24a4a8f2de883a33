//! Single blocks.
ghost use Rattle.std.specs.Prelude.{◌≡◌, ◌<◌, IfOk};
ghost use Rattle.std.specs.Option.{unwrap_or};
ghost use Rattle.edit_terms.specs.Area.{volume};
ghost use Rattle.edit_terms.specs.Grid.{is_same_pos};
ghost use Rattle.run_terms.specs.Change.{content_of};
ghost use Rattle.run_terms.specs.Effect.{put};

use crate::spot::position;
use edit_terms::{BlockState, Content, Pos};
use memory::Memory;
use plain_terms::Blocks;
use std::alloc::Global;

/// What a put sets at a place of the list of the world's blocks. None everywhere else.
pub(crate) fn put_content(
    alloc: Global,
    blocks: &Blocks<'_>,
    at: &Pos,
    state: &BlockState,
    index: u32,
) -> Result<Option<Content>, Memory>
    requires { index < volume blocks.now.area }
    ensures { IfOk result (λ new. unwrap_or new (content_of blocks.now index) ≡ put at.now state.now blocks.now index) }
{
    if !is_same_pos(at, &position(blocks.area(), index)) {
        return Ok(None);
    }
    let state = state.copy(alloc)?;
    Ok(Some(Content {
        state,
        entity: None,
    }))
}

fn is_same_pos(p: &Pos, q: &Pos) -> bool
    ensures { result ≡ is_same_pos p.now q.now }
{
    p.x == q.x && p.y == q.y && p.z == q.z
}
