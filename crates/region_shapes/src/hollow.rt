//! The inner parts of rows that walls, faces and hollow shapes leave out.

ghost use Rattle.std.specs.Prelude.{◌≡◌};
ghost use Rattle.region_shapes.specs.Rows.{walled, enclosed, core_row, shape_row, whole_row};

use crate::interval::{Interval, common, nowhere, shrunk};
use crate::row::{row_above, row_at, row_below, row_north, row_south};
use crate::whole::whole_row;
use edit_terms::{Pos, Region};

/// The positions of a position's row whose neighbours north, south, east and west belong to the whole shape.
fn walled(region: &Region, p: &Pos) -> Interval
    ensures { result ≡ walled (whole_row region.now) p.now.y p.now.z }
{
    let own = shrunk(&whole_row(region, &row_at(p)));
    let north = whole_row(region, &row_north(p));
    let south = whole_row(region, &row_south(p));
    common(&own, &common(&north, &south))
}

/// The positions of a position's row whose six neighbours belong to the whole shape.
fn enclosed(region: &Region, p: &Pos) -> Interval
    ensures { result ≡ enclosed (whole_row region.now) p.now.y p.now.z }
{
    let level = walled(region, p);
    let above = whole_row(region, &row_above(p));
    let below = whole_row(region, &row_below(p));
    common(&level, &common(&above, &below))
}

/// The part of the whole shape's row of a position that doesn't belong to the region.
pub(crate) fn core_row(region: &Region, p: &Pos) -> Interval
    ensures { result ≡ core_row region.now p.now.y p.now.z }
{
    match region {
        Region::Selected(_) => nowhere(),
        Region::Walls(_) => walled(region, p),
        Region::Faces(_) => enclosed(region, p),
        Region::Ball { hollow: true, .. } => enclosed(region, p),
        Region::Tube { hollow: true, .. } => walled(region, p),
        _ => nowhere(),
    }
}
