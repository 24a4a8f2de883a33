//! Cuts.
ghost use Rattle.std.specs.Prelude.{◌≡◌, ◌<◌, ◌≤◌, ◌&&◌, IfOk};
ghost use Rattle.std.specs.Option.{unwrap_or};
ghost use Rattle.edit_terms.specs.Area.{volume};
ghost use Rattle.edit_terms.specs.Region.{is_selected};
ghost use Rattle.plain_terms.specs.Numbering.{mask_noise};
ghost use Rattle.run_terms.specs.Change.{content_of};
ghost use Rattle.run_terms.specs.Effect.{cut, passes_global};
ghost use Rattle.plain_effects.specs.Jobs.{own_task};

use crate::air::air;
use crate::job::Job;
use crate::masks::passes_global;
use crate::spot::position;
use edit_terms::{Content, Pos, Selection};
use memory::Memory;
use plain_terms::{Blocks, is_selected};
use std::alloc::Global;

/// What a cut leaves at a place of the list of the world's blocks. None where it cuts nothing.
pub(crate) fn cut_content(
    alloc: Global,
    job: &Job<'_>,
    blocks: &Blocks<'_>,
    from: &Selection,
    index: u32,
) -> Result<Option<Content>, Memory>
    requires index { index < volume blocks.now.area }
    requires global { mask_noise job.now.spec.global ≤ 4 }
    ensures { IfOk result (λ new. unwrap_or new (content_of blocks.now index) ≡ cut from.now (own_task job.now) blocks.now index) }
{
    let p = position(blocks.area(), index);
    if !is_cut(job, blocks, from, &p) {
        return Ok(None);
    }
    Ok(Some(air(alloc)?))
}

/// True exactly for a position of the selection where the global mask holds.
fn is_cut(job: &Job<'_>, blocks: &Blocks<'_>, from: &Selection, p: &Pos) -> bool
    requires { mask_noise job.now.spec.global ≤ 4 }
    ensures { result ≡ (is_selected from.now p.now && passes_global (own_task job.now) blocks.now p.now) }
{
    is_selected(from, p) && passes_global(job, blocks, p)
}
