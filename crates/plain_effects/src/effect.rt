//! What a job's work does at one place.
ghost use Rattle.std.specs.Prelude.{◌≡◌, ◌<◌, IfOk, IfSome};
ghost use Rattle.std.specs.Option.{unwrap_or};
ghost use Rattle.edit_terms.specs.Area.{volume};
ghost use Rattle.clipboard_transform.specs.Bounds.{IsOnMap};
ghost use Rattle.run_terms.specs.Change.{content_of};
ghost use Rattle.run_terms.specs.Effect.{effect_at};
ghost use Rattle.plain_effects.specs.Jobs.{own_task, IsOfItself, HasFewNoise, HasFewCopies};

use crate::cut::cut_content;
use crate::fill::fill_content;
use crate::job::Job;
use crate::paste::paste_content;
use crate::put::put_content;
use crate::shift::move_content;
use crate::stack::stack_content;
use edit_terms::{Content, Work};
use memory::Memory;
use plain_terms::Blocks;
use std::alloc::Global;

/// The content after a job's work at a place of the list of the world's blocks. None where the content
/// stays.
pub(crate) fn effect(
    alloc: Global,
    job: &Job<'_>,
    blocks: &Blocks<'_>,
    index: u32,
) -> Result<Option<Content>, Memory>
    requires index { index < volume blocks.now.area }
    requires work { IsOfItself job.now.spec.work }
    requires masks { HasFewNoise job.now.spec }
    requires origin { IfSome job.now.spec.clip (λ c. IsOnMap c.origin) }
    requires counts { HasFewCopies job.now.spec.work }
    ensures { IfOk result (λ new. unwrap_or new (content_of blocks.now index) ≡ effect_at (own_task job.now) blocks.now index) }
{
    match &job.spec.work {
        Work::Fill {
            region,
            mask,
            pattern,
        } => fill_content(alloc, job, blocks, region, mask.as_ref(), pattern, index),
        Work::Stack { from, count, to } => stack_content(
            alloc, job, blocks, from, *count, *to, index,
        ),
        Work::Move { from, count, to } => move_content(
            alloc, job, blocks, from, *count, *to, index,
        ),
        Work::Copy { .. } => Ok(None),
        Work::Cut { from } => cut_content(alloc, job, blocks, from, index),
        Work::Paste { place, skip_air } => paste_content(
            alloc, job, blocks, place, *skip_air, index,
        ),
        Work::Put { at, state } => put_content(alloc, blocks, at, state, index),
        Work::Undo { .. } => Ok(None),
        Work::Redo { .. } => Ok(None),
    }
}
