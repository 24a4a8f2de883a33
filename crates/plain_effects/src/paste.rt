//! Pastes.
ghost use Rattle.std.specs.Prelude.{◌≡◌, ◌<◌, ◌≤◌, ◌&&◌, IfOk, IfSome};
ghost use Rattle.std.specs.Option.{unwrap_or};
ghost use Rattle.edit_terms.specs.Area.{volume};
ghost use Rattle.edit_terms.specs.Clipboard.{clipboard_of, relative_to};
ghost use Rattle.edit_terms.specs.StateText.{is_air};
ghost use Rattle.clipboard_transform.specs.Bounds.{IsOnMap};
ghost use Rattle.plain_terms.specs.Numbering.{mask_noise};
ghost use Rattle.run_terms.specs.Change.{content_of};
ghost use Rattle.run_terms.specs.Effect.{pasted};
ghost use Rattle.plain_effects.specs.Jobs.{own_task};

use crate::job::Job;
use crate::masks::passes_global;
use crate::relative::{is_in_reach, relative_to};
use crate::spot::position;
use edit_terms::laws::inverse_transform;
use edit_terms::{Clip, Content, Pos};
use memory::Memory;
use plain_terms::{Blocks, Clipboard};
use std::alloc::Global;

/// What a paste puts at a place of the list of the world's blocks. None where it puts nothing.
#[tactic(auto, using(crate::proofs::PasteLemmas::pasted_nowhere, crate::proofs::PasteLemmas::pasted_nothing, crate::proofs::PasteLemmas::pasted_skipped, crate::proofs::PasteLemmas::pasted_found))]
pub(crate) fn paste_content(
    alloc: Global,
    job: &Job<'_>,
    blocks: &Blocks<'_>,
    place: &Pos,
    skip_air: bool,
    index: u32,
) -> Result<Option<Content>, Memory>
    requires index { index < volume blocks.now.area }
    requires global { mask_noise job.now.spec.global ≤ 4 }
    requires origin { IfSome job.now.spec.clip (λ c. IsOnMap c.origin) }
    ensures { IfOk result (λ new. unwrap_or new (content_of blocks.now index) ≡ pasted place.now skip_air (own_task job.now) blocks.now index) }
{
    let p = position(blocks.area(), index);
    if !passes_global(job, blocks, &p) {
        return Ok(None);
    }
    let Some(content) = copied_at(alloc, job, place, &p)? else {
        return Ok(None);
    };
    if is_skipped(skip_air, &content) {
        return Ok(None);
    }
    Ok(Some(content))
}

fn is_skipped(skip_air: bool, content: &Content) -> bool
    ensures { result ≡ (skip_air && is_air content.now.state) }
{
    skip_air && content.state.is_air()
}

/// What the job's clipboard has at a position when it is put to a place. None where it has nothing.
fn copied_at(alloc: Global, job: &Job<'_>, place: &Pos, p: &Pos) -> Result<Option<Content>, Memory>
    requires { IfSome job.now.spec.clip (λ c. IsOnMap c.origin) }
    ensures { IfOk result (λ content. content ≡ (own_task job.now).copied.at (relative_to place.now p.now)) }
{
    match &job.spec.clip {
        None => Ok(None),
        Some(clip) => Ok(clipped_at(alloc, clip, job.earlier, place, p)?),
    }
}

/// The same of this clipboard.
#[tactic(auto, using(crate::proofs::PasteLemmas::nothing_out_of_reach, crate::proofs::PasteLemmas::had_there))]
fn clipped_at(
    alloc: Global,
    clip: &Clip,
    earlier: &Blocks<'_>,
    place: &Pos,
    p: &Pos,
) -> Result<Option<Content>, Memory>
    requires { IsOnMap clip.now.origin }
    ensures { IfOk result (λ content. content ≡ (clipboard_of clip.now earlier.now).at (relative_to place.now p.now)) }
{
    earlier.area().well_formed();
    inverse_transform();
    if !is_in_reach(place, p) {
        return Ok(None);
    }
    let relative = relative_to(place, p);
    let content = Clipboard::new(clip, earlier).at(alloc, &relative)?;
    Ok(content)
}
