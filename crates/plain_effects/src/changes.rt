//! Where a job may change the world.
ghost use Rattle.std.specs.Prelude.{◌≡◌, IfSome, Some, is_some};
ghost use Rattle.edit_terms.specs.Clipboard.{clipboard_of, relative_to};
ghost use Rattle.edit_terms.specs.Region.{is_inside};
ghost use Rattle.clipboard_transform.specs.Bounds.{IsOnMap};
ghost use Rattle.region_shapes.specs.Extents.{extent_of};
ghost use Rattle.run_terms.specs.Access.{single_box};
ghost use Rattle.run_terms.specs.Effect.{effect_at};
ghost use Rattle.plain_effects.specs.Jobs.{own_task, IsOfItself};
ghost use Rattle.plain_effects.specs.Sections.{HasAll, HasBrought, StaysOutside};

use crate::fits::{region_fits, selection_fits};
use crate::job::Job;
use crate::strip::strip;
use clipboard_transform::{clip_box, placed_extent};
use edit_terms::{Clip, Direction, Pos, Region, Selection, Work};
use plain_terms::Blocks;
use region_shapes::{Extent, frame_of, frame_of_selection, numbers_from};

/// The extent outside which a job's work changes nothing. None where it changes nothing at all.
pub(crate) fn changed_extent(job: &Job<'_>, blocks: &Blocks<'_>) -> Option<Extent>
    requires work { IsOfItself job.now.spec.work }
    requires origin { IfSome job.now.spec.clip (λ c. IsOnMap c.origin) }
    ensures { StaysOutside result (effect_at (own_task job.now) blocks.now) blocks.now }
{
    blocks.area().well_formed();
    match &job.spec.work {
        Work::Fill { region, .. } => Some(filled_extent(region)),
        Work::Stack { from, to, .. } => Some(brought_extent(from, *to)),
        Work::Move { from, to, .. } => Some(brought_extent(from, *to)),
        Work::Copy { .. } => None,
        Work::Cut { from } => Some(filled_extent(&Region::Selected(*from))),
        Work::Paste { place, .. } => pasted_extent(job, place),
        Work::Put { at, .. } => Some(single_extent(at)),
        Work::Undo { .. } => None,
        Work::Redo { .. } => None,
    }
}

/// The bounding box of a region.
fn filled_extent(region: &Region) -> Extent
    ensures { HasAll (Some result) (is_inside region.now) }
{
    region_fits(region);
    frame_of(region)
}

/// The extent to which selected blocks are brought in a direction, however far.
fn brought_extent(from: &Selection, to: Direction) -> Extent
    ensures { HasBrought result from.now to }
{
    selection_fits(from);
    strip(&frame_of_selection(from), to)
}

/// The extent of the job's clipboard at a place. None where it has no block.
fn pasted_extent(job: &Job<'_>, place: &Pos) -> Option<Extent>
    requires { IfSome job.now.spec.clip (λ c. IsOnMap c.origin) }
    ensures { HasAll result (λ p. is_some ((own_task job.now).copied.at (relative_to place.now p))) }
{
    match &job.spec.clip {
        None => None,
        Some(clip) => clip_extent(clip, job.earlier, place),
    }
}

/// The same of this clipboard.
fn clip_extent(clip: &Clip, earlier: &Blocks<'_>, place: &Pos) -> Option<Extent>
    requires { IsOnMap clip.now.origin }
    ensures { HasAll result (λ p. is_some ((clipboard_of clip.now earlier.now).at (relative_to place.now p))) }
{
    selection_fits(&clip.from);
    let Some(corners) = clip_box(clip, earlier.area()) else {
        return None;
    };
    Some(placed_extent(place, &corners))
}

/// The extent of a single block.
fn single_extent(at: &Pos) -> Extent
    ensures { result ≡ extent_of (single_box at.now) }
{
    let x = numbers_from(at.x, 1);
    let y = numbers_from(at.y, 1);
    let z = numbers_from(at.z, 1);
    Extent { x, y, z }
}
