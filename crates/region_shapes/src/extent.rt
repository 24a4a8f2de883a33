//! Boxes of positions by an interval on each axis.

ghost use Rattle.std.specs.Prelude.{◌≡◌};
ghost use Rattle.region_shapes.specs.Extents.{extent_of, is_in_extent, is_without, common_extent, IsExtentNear, IsExtentOnMap};

use crate::interval::{Interval, common, is_among, is_empty, numbers_from};
use edit_terms::{Pos, WorldBox};

/// A box of positions. It may reach beyond the map, and may be empty.
#[derive(Clone, Copy, Debug)]
pub struct Extent {
    pub x: Interval,
    pub y: Interval,
    pub z: Interval,
}

/// The extent of a world's box.

pub fn extent_of(area: &WorldBox) -> Extent
    ensures value { result ≡ extent_of area.now }
    ensures near { IsExtentNear result }
    ensures map { IsExtentOnMap result }
{
    area.well_formed();
    let least = area.least();
    let x = numbers_from(least.x, area.width());
    let y = numbers_from(least.y, area.height());
    let z = numbers_from(least.z, area.length());
    Extent { x, y, z }
}

/// True exactly for a position of the extent.
pub fn is_in_extent(extent: &Extent, p: &Pos) -> bool
    ensures { result ≡ is_in_extent extent.now p.now }
{
    let x = is_among(&extent.x, p.x);
    let y = is_among(&extent.y, p.y);
    let z = is_among(&extent.z, p.z);
    x && y && z
}

/// True exactly where there is no position.
pub fn is_without(extent: &Extent) -> bool
    ensures { result ≡ is_without extent.now }
{
    is_empty(&extent.x) || is_empty(&extent.y) || is_empty(&extent.z)
}

/// The positions of both.
pub fn common_extent(first: &Extent, second: &Extent) -> Extent
    ensures value { result ≡ common_extent first.now second.now }
    ensures map { IsExtentOnMap second.now → IsExtentOnMap result }
{
    Extent {
        x: common(&first.x, &second.x),
        y: common(&first.y, &second.y),
        z: common(&first.z, &second.z),
    }
}
