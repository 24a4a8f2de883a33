//! Fills.
ghost use Rattle.std.specs.Prelude.{◌≡◌, ◌<◌, ◌≤◌, option_copied, IfOk, IfSome};
ghost use Rattle.std.specs.Option.{unwrap_or};
ghost use Rattle.edit_terms.specs.Area.{volume};
ghost use Rattle.edit_terms.specs.Pattern.{pattern_value};
ghost use Rattle.clipboard_transform.specs.Bounds.{IsOnMap};
ghost use Rattle.plain_terms.specs.Numbering.{mask_noise};
ghost use Rattle.run_terms.specs.Change.{content_of};
ghost use Rattle.run_terms.specs.Effect.{filled, is_filled};
ghost use Rattle.plain_effects.specs.Jobs.{own_task};

use crate::copied::clipboard_of;
use crate::job::Job;
use crate::masks::{passes_global, passes_own};
use crate::spot::position;
use edit_terms::{Content, Mask, Pattern, Pos, Region};
use memory::Memory;
use plain_terms::{Blocks, is_inside, pattern_value};
use std::alloc::Global;

/// What a fill puts at a place of the list of the world's blocks. None where it doesn't fill.
#[tactic(auto, using(crate::proofs::FillLemmas::filled_here))]
pub(crate) fn fill_content(
    alloc: Global,
    job: &Job<'_>,
    blocks: &Blocks<'_>,
    region: &Region,
    mask: Option<&Mask>,
    pattern: &Pattern,
    index: u32,
) -> Result<Option<Content>, Memory>
    requires index { index < volume blocks.now.area }
    requires own { mask_noise (option_copied mask) ≤ 4 }
    requires global { mask_noise job.now.spec.global ≤ 4 }
    requires origin { IfSome job.now.spec.clip (λ c. IsOnMap c.origin) }
    ensures { IfOk result (λ new. unwrap_or new (content_of blocks.now index) ≡ filled region.now (option_copied mask.entry) pattern.now (own_task job.now) blocks.now index) }
{
    let p = position(blocks.area(), index);
    if !is_filled(job, blocks, region, mask, &p) {
        return Ok(None);
    }
    Ok(Some(chosen(alloc, job, pattern, &p, blocks.content(index))?))
}

/// What the pattern gives for an old content at a position of the map.
fn chosen(
    alloc: Global,
    job: &Job<'_>,
    pattern: &Pattern,
    p: &Pos,
    old: &Content,
) -> Result<Content, Memory>
    requires map { IsOnMap p.now }
    requires origin { IfSome job.now.spec.clip (λ c. IsOnMap c.origin) }
    ensures { IfOk result (λ new. new ≡ pattern_value pattern.now (own_task job.now).copied job.now.seed job.now.ticket p.now old.now) }
{
    let clipboard = clipboard_of(job);
    let (seed, ticket) = (job.seed, job.ticket);
    let new = pattern_value(alloc, pattern, clipboard.as_ref(), seed, ticket, p, old)?;
    Ok(new)
}

/// True exactly for a position of the region where the fill's mask and the global mask hold.
fn is_filled(
    job: &Job<'_>,
    blocks: &Blocks<'_>,
    region: &Region,
    mask: Option<&Mask>,
    p: &Pos,
) -> bool
    requires own { mask_noise (option_copied mask) ≤ 4 }
    requires global { mask_noise job.now.spec.global ≤ 4 }
    ensures { result ≡ is_filled region.now (option_copied mask.entry) (own_task job.now) blocks.now p.now }
{
    is_inside(region, p) && passes_own(job, blocks, mask, p) && passes_global(job, blocks, p)
}
