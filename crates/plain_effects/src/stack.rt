//! Stacks.
ghost use Rattle.std.specs.Prelude.{◌≡◌, ◌<◌, ◌≤◌, ◌^◌, true, false, MatchOption, option_copied, option_map, IfOk};
ghost use Rattle.std.specs.List.{find};
ghost use Rattle.std.specs.Option.{unwrap_or};
ghost use Rattle.edit_terms.specs.Area.{holds, volume};
ghost use Rattle.edit_terms.specs.Frame.{frame_of_selection, size_along};
ghost use Rattle.edit_terms.specs.World.{content_at};
ghost use Rattle.clipboard_transform.specs.Bounds.{IsOnMap};
ghost use Rattle.plain_terms.specs.Numbering.{mask_noise};
ghost use Rattle.run_terms.specs.Change.{content_of};
ghost use Rattle.run_terms.specs.Effect.{stacked, stacked_from, is_source, copy_source};
ghost use Rattle.plain_effects.specs.Jobs.{own_task};
ghost use Rattle.plain_effects.specs.Sources.{StandsAtSource};

use crate::job::Job;
use crate::masks::passes_global;
use crate::size::size_along;
use crate::source::{behind, source};
use crate::spot::position;
use edit_terms::{Content, Direction, Pos, Selection};
use memory::Memory;
use plain_terms::Blocks;
use std::alloc::Global;

/// What a stack's copies bring to a place of the list of the world's blocks. None where none comes.
#[tactic(auto, using(crate::proofs::StackLemmas::stacked_nowhere, crate::proofs::StackLemmas::stacked_nothing, crate::proofs::StackLemmas::stacked_here))]
pub(crate) fn stack_content(
    alloc: Global,
    job: &Job<'_>,
    blocks: &Blocks<'_>,
    from: &Selection,
    count: u32,
    to: Direction,
    index: u32,
) -> Result<Option<Content>, Memory>
    requires index { index < volume blocks.now.area }
    requires global { mask_noise job.now.spec.global ≤ 4 }
    requires few { count ≤ 1000 }
    ensures { IfOk result (λ new. unwrap_or new (content_of blocks.now index) ≡ stacked from.now count to (own_task job.now) blocks.now index) }
{
    let p = position(blocks.area(), index);
    if !passes_global(job, blocks, &p) {
        return Ok(None);
    }
    match first_copy(blocks, from, count, to, &p) {
        None => Ok(None),
        Some(content) => Ok(Some(content.copy(alloc)?)),
    }
}

/// The content that the first of so many copies brings to a position. None where none comes.
#[tactic(auto, using(crate::proofs::StackLemmas::first_found, crate::proofs::StackLemmas::none_found, crate::proofs::StackLemmas::none_so_far))]
fn first_copy<'a>(
    blocks: &Blocks<'a>,
    from: &Selection,
    count: u32,
    to: Direction,
    p: &Pos,
) -> Option<&'a Content>
    requires few { count ≤ 1000 }
    requires held { holds blocks.now.area p.now ≡ true }
    ensures { option_copied result ≡ option_map (content_at blocks.now) (find (is_source from.now blocks.now) (stacked_from from.now count to p.now)) }
{
    let step = size_along(to, from);
    for number in 1..count + 1 {
        if let Some(content) = copy(blocks, from, to, step, number, p) {
            return Some(content);
        }
    }
    None
}

/// The content that the copy of this number brings to a position, where each copy is a step on. None exactly
/// where it brings none.
#[tactic(auto, using(crate::proofs::StackLemmas::too_far, plain_terms::proofs::MapLemmas::held_on_map))]
fn copy<'a>(
    blocks: &Blocks<'a>,
    from: &Selection,
    to: Direction,
    step: u64,
    number: u32,
    p: &Pos,
) -> Option<&'a Content>
    requires step { step ≡ size_along to (frame_of_selection from.now) }
    requires near { step ≤ 2 ^ 37 }
    requires few { number ≤ 1000 }
    requires held { holds blocks.now.area p.now ≡ true }
    ensures { MatchOption result (is_source from.now blocks.now (copy_source from.now to p.now number) ≡ false) (λ c. StandsAtSource from.now blocks.now (copy_source from.now to p.now number) c.now) }
{
    blocks.area().well_formed();
    let far = u64::from(number) * step;
    if far > 65_535 {
        return None;
    }
    source(blocks, from, &behind(to, far as u32, p))
}
