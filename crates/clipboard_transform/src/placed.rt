//! Boxes of relative positions at a place.

ghost use Rattle.std.specs.Prelude.{◌≡◌, ◌+ℤ◌, pos};
ghost use Rattle.edit_terms.specs.Area.{Area};
ghost use Rattle.edit_terms.specs.Clipboard.{placed_at};
ghost use Rattle.region_shapes.specs.Extents.{extent_of};
ghost use Rattle.clipboard_transform.specs.Bounds.{corners};

use crate::relative_box::RelativeBox;
use edit_terms::Pos;
use region_shapes::{Extent, Interval};

/// The extent of a box of relative positions that is put to a place. It may reach beyond the map.
pub fn placed_extent(place: &Pos, bounds: &RelativeBox) -> Extent
    ensures { (box : Area) → bounds.now ≡ corners box → result ≡ extent_of (record box { least = placed_at place.now box.least }) }
{
    Extent {
        x: placed_x(place, bounds),
        y: placed_y(place, bounds),
        z: placed_z(place, bounds),
    }
}

fn placed_x(place: &Pos, bounds: &RelativeBox) -> Interval
    ensures from { result.from ≡ place.now.x +ℤ bounds.now.least.x }
    ensures to { result.to ≡ place.now.x +ℤ bounds.now.greatest.x +ℤ pos 1 }
{
    let x = i64::from(place.x);
    Interval {
        from: x + i64::from(bounds.least.x),
        to: x + i64::from(bounds.greatest.x) + 1,
    }
}

fn placed_y(place: &Pos, bounds: &RelativeBox) -> Interval
    ensures from { result.from ≡ place.now.y +ℤ bounds.now.least.y }
    ensures to { result.to ≡ place.now.y +ℤ bounds.now.greatest.y +ℤ pos 1 }
{
    let y = i64::from(place.y);
    Interval {
        from: y + i64::from(bounds.least.y),
        to: y + i64::from(bounds.greatest.y) + 1,
    }
}

fn placed_z(place: &Pos, bounds: &RelativeBox) -> Interval
    ensures from { result.from ≡ place.now.z +ℤ bounds.now.least.z }
    ensures to { result.to ≡ place.now.z +ℤ bounds.now.greatest.z +ℤ pos 1 }
{
    let z = i64::from(place.z);
    Interval {
        from: z + i64::from(bounds.least.z),
        to: z + i64::from(bounds.greatest.z) + 1,
    }
}
