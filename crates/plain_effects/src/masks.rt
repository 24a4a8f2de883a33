//! What the masks of a job read, and where they hold.
ghost use Rattle.std.specs.Prelude.{◌≡◌, ◌≤◌, option_copied};
ghost use Rattle.edit_terms.specs.Draw.{mask_use};
ghost use Rattle.edit_terms.specs.Mask.{is_allowed};
ghost use Rattle.plain_terms.specs.Numbering.{mask_noise};
ghost use Rattle.run_terms.specs.Effect.{scene_of, passes_global};
ghost use Rattle.plain_effects.specs.Jobs.{own_task};

use crate::job::Job;
use edit_terms::{Mask, Pos};
use plain_terms::{Blocks, Scene, is_allowed};

/// The numbers of the first noise leaves of a command's own mask and of the global mask.
const MASK_USE: u32 = 0;

const GLOBAL_MASK_USE: u32 = 4;

/// What the masks of a job read.
pub(crate) fn scene_of<'a>(job: &Job<'_>, blocks: &'a Blocks<'a>) -> Scene<'a>
    ensures { result ≡ scene_of (own_task job.now) blocks.now }
{
    Scene {
        blocks,
        selection: job.spec.selection,
        seed: job.seed,
        ticket: job.ticket,
    }
}

/// True exactly where the command's own mask holds, and everywhere without one.
pub(crate) fn passes_own(job: &Job<'_>, blocks: &Blocks<'_>, mask: Option<&Mask>, p: &Pos) -> bool
    requires { mask_noise (option_copied mask) ≤ 4 }
    ensures { result ≡ is_allowed (option_copied mask.entry) mask_use (scene_of (own_task job.now) blocks.now) p.now }
{
    let scene = scene_of(job, blocks);
    is_allowed(mask, MASK_USE, &scene, p)
}

/// True exactly where the global mask holds, and everywhere without one.
pub(crate) fn passes_global(job: &Job<'_>, blocks: &Blocks<'_>, p: &Pos) -> bool
    requires { mask_noise job.now.spec.global ≤ 4 }
    ensures { result ≡ passes_global (own_task job.now) blocks.now p.now }
{
    let scene = scene_of(job, blocks);
    is_allowed(job.spec.global.as_ref(), GLOBAL_MASK_USE, &scene, p)
}
