//! Which block of a world a clipboard has at a relative position.
ghost use Rattle.std.specs.Prelude.{◌≡◌, false, MatchOption, option_copied, negsuc, pos, ◌+ℤ◌, ◌≤ℤ◌};
ghost use Rattle.edit_terms.specs.Area.{holds};
ghost use Rattle.edit_terms.specs.Clipboard.{placed_at, copied_from};
ghost use Rattle.clipboard_transform.specs.Bounds.{IsOnMap};
ghost use Rattle.region_shapes.specs.Extents.{extent_of};
ghost use Rattle.plain_terms.specs.Copies.{reach, original, IsCopiedFrom};
ghost use Rattle.plain_terms.specs.Places.{pos_of};

use crate::blocks::Blocks;
use crate::on_map::block_of;
use crate::place::Place;
use crate::selection::is_selected;
use clipboard_transform::source;
use edit_terms::laws::inverse_transform;
use edit_terms::{Clip, Content, Pos, WorldBox};
use region_shapes::{Extent, Interval, is_in_extent};

/// The content of the selected block of the world that a clipboard has at a relative position, before it
/// is turned. None exactly where there is none.
#[tactic(auto, using(crate::proofs::CopyLemmas::original_outside, crate::proofs::CopyLemmas::original_unselected, crate::proofs::CopyLemmas::original_selected))]
pub(crate) fn copied_at<'a>(clip: &Clip, blocks: &Blocks<'a>, relative: &Pos) -> Option<&'a Content>
    requires { IsOnMap clip.now.origin }
    ensures { option_copied result ≡ original clip.now blocks.now relative.now }
{
    let Some(p) = copied_from(clip, blocks.area(), relative) else {
        return None;
    };
    if !is_selected(&clip.from, &p) {
        return None;
    }
    blocks.at(&p)
}

/// The block of the box that a clipboard has at a relative position. None exactly where that is outside.
#[tactic(auto, using(crate::proofs::CopyLemmas::unreachable_outside, crate::proofs::CopyLemmas::reachable_turnable))]
fn copied_from(clip: &Clip, area: &WorldBox, relative: &Pos) -> Option<Pos>
    requires { IsOnMap clip.now.origin }
    ensures { MatchOption result (holds area.now (copied_from clip.now relative.now) ≡ false) (IsCopiedFrom clip.now area.now relative.now) }
{
    area.well_formed();
    inverse_transform();
    if !is_in_reach(relative) {
        return None;
    }
    let back = source(&clip.transform, *relative);
    block_of(area, &placed_at(&clip.origin, &back))
}

/// True exactly for a relative position that two positions of the map may have.
fn is_in_reach(relative: &Pos) -> bool
    ensures { result ≡ holds reach relative.now }
{
    is_in_extent(&reach(), relative)
}

/// The relative positions that two positions of the map may have.
fn reach() -> Extent
    ensures { result ≡ extent_of reach }
{
    let each = Interval {
        from: -134_217_728,
        to: 134_217_729,
    };
    Extent {
        x: each,
        y: each,
        z: each,
    }
}

/// The place that is so far from a position.
fn placed_at(origin: &Pos, relative: &Pos) -> Place
    ensures { pos_of result ≡ placed_at origin.now relative.now }
{
    Place {
        x: placed_x(origin, relative),
        y: placed_y(origin, relative),
        z: placed_z(origin, relative),
    }
}

fn placed_x(origin: &Pos, relative: &Pos) -> i64
    ensures value { result ≡ origin.now.x +ℤ relative.now.x }
    ensures low { negsuc 4294967295 ≤ℤ result }
    ensures high { result ≤ℤ pos 4294967296 }
{
    i64::from(origin.x) + i64::from(relative.x)
}

fn placed_y(origin: &Pos, relative: &Pos) -> i64
    ensures value { result ≡ origin.now.y +ℤ relative.now.y }
    ensures low { negsuc 4294967295 ≤ℤ result }
    ensures high { result ≤ℤ pos 4294967296 }
{
    i64::from(origin.y) + i64::from(relative.y)
}

fn placed_z(origin: &Pos, relative: &Pos) -> i64
    ensures value { result ≡ origin.now.z +ℤ relative.now.z }
    ensures low { negsuc 4294967295 ≤ℤ result }
    ensures high { result ≤ℤ pos 4294967296 }
{
    i64::from(origin.z) + i64::from(relative.z)
}
