//! The bounds of a clipboard.

ghost use Rattle.std.specs.Prelude.{◌≡◌, ◌<◌, ◌≤◌, option_map, pos, negsuc, ◌+ℤ◌, ◌≤ℤ◌};
ghost use Rattle.edit_terms.specs.Clipboard.{relative_to, clip_box_of};
ghost use Rattle.clipboard_transform.specs.Bounds.{IsOnMap, IsBoxOnMap, IsBoxTurnable, corners, last_from};
ghost use Rattle.clipboard_transform.specs.Reach.{IsTurnable};

use crate::box_turning::sent_box;
use crate::relative_box::RelativeBox;
use edit_terms::{Clip, Pos, Region, WorldBox};
use region_shapes::bounds;

/// The bounds of a clipboard: the bounding box of what was selected, cut by the world's box, relative to
/// the position from which it was copied, and turned. That position is on the map. None exactly where the
/// bounding box has no block of the world.
pub fn clip_box(clip: &Clip, area: &WorldBox) -> Option<RelativeBox>
    requires { IsOnMap clip.now.origin }
    ensures { result ≡ option_map corners (clip_box_of clip.now area.now) }
{
    let shared = bounds(&Region::Selected(clip.from), area)?;
    shared.well_formed();
    let copied = relative_box(&clip.origin, &box_of(&shared));
    Some(sent_box(&clip.transform, &copied))
}

/// The last of so many coordinates from the least on.
fn last(low: i32, size: u32) -> i32
    requires some { 0 < size }
    requires few { size ≤ 65535 }
    requires from { negsuc 33554431 ≤ℤ low }
    requires to { (low +ℤ pos size) ≤ℤ pos 33554432 }
    ensures { result ≡ last_from low size }
{
    low + size as i32 - 1
}

#[tactic(auto, using(edit_terms::proofs::AreaLemmas::on_map, edit_terms::proofs::AreaLemmas::limits))]
fn box_of(area: &WorldBox) -> RelativeBox
    ensures value { result ≡ corners area.now }
    ensures map { IsBoxOnMap (corners area.now) }
{
    area.well_formed();
    let least = area.least();
    RelativeBox {
        least,
        greatest: Pos {
            x: last(least.x, area.width()),
            y: last(least.y, area.height()),
            z: last(least.z, area.length()),
        },
    }
}

fn relative_box(origin: &Pos, b: &RelativeBox) -> RelativeBox
    requires origin { IsOnMap origin.now }
    requires map { IsBoxOnMap b.now }
    ensures least { result.least ≡ relative_to origin.now b.now.least }
    ensures greatest { result.greatest ≡ relative_to origin.now b.now.greatest }
    ensures turnable { IsBoxTurnable result }
{
    RelativeBox {
        least: relative(origin, &b.least),
        greatest: relative(origin, &b.greatest),
    }
}

fn relative(origin: &Pos, p: &Pos) -> Pos
    requires origin { IsOnMap origin.now }
    requires map { IsOnMap p.now }
    ensures value { result ≡ relative_to origin.now p.now }
    ensures turnable { IsTurnable result }
{
    Pos {
        x: p.x - origin.x,
        y: p.y - origin.y,
        z: p.z - origin.z,
    }
}
