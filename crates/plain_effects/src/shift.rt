//! Moves.
ghost use Rattle.std.specs.Prelude.{◌≡◌, ◌<◌, ◌≤◌, IfOk};
ghost use Rattle.std.specs.Option.{unwrap_or};
ghost use Rattle.edit_terms.specs.Area.{volume};
ghost use Rattle.plain_terms.specs.Numbering.{mask_noise};
ghost use Rattle.run_terms.specs.Change.{content_of};
ghost use Rattle.run_terms.specs.Effect.{moved};
ghost use Rattle.plain_effects.specs.Jobs.{own_task};

use crate::air::air;
use crate::job::Job;
use crate::masks::passes_global;
use crate::source::{behind, source};
use crate::spot::position;
use edit_terms::{Content, Direction, Selection};
use memory::Memory;
use plain_terms::{Blocks, is_selected};
use std::alloc::Global;

/// What a move brings to a place of the list of the world's blocks, or the air that it leaves there. None
/// where the content stays.
#[tactic(auto, using(crate::proofs::MoveLemmas::moved_nowhere, crate::proofs::MoveLemmas::moved_here, crate::proofs::MoveLemmas::moved_away, crate::proofs::MoveLemmas::moved_nothing))]
pub(crate) fn move_content(
    alloc: Global,
    job: &Job<'_>,
    blocks: &Blocks<'_>,
    from: &Selection,
    count: u32,
    to: Direction,
    index: u32,
) -> Result<Option<Content>, Memory>
    requires index { index < volume blocks.now.area }
    requires global { mask_noise job.now.spec.global ≤ 4 }
    requires few { count ≤ 1000 }
    ensures { IfOk result (λ new. unwrap_or new (content_of blocks.now index) ≡ moved from.now count to (own_task job.now) blocks.now index) }
{
    let p = position(blocks.area(), index);
    if !passes_global(job, blocks, &p) {
        return Ok(None);
    }
    if let Some(content) = source(blocks, from, &behind(to, count, &p)) {
        return Ok(Some(content.copy(alloc)?));
    }
    if !is_selected(from, &p) {
        return Ok(None);
    }
    Ok(Some(air(alloc)?))
}
