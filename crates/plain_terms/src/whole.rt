//! Which places belong to the whole shape that a region is, or is the walls, faces or shell of.
ghost use Rattle.std.specs.Prelude.{◌≡◌};
ghost use Rattle.edit_terms.specs.Area.{is_from};
ghost use Rattle.edit_terms.specs.Region.{flat_distance, is_in_reach, is_in_ball, is_in_tube, is_in_whole};
ghost use Rattle.plain_terms.specs.Places.{pos_of};

use crate::gap::{distance, flat_distance, square};
use crate::place::Place;
use crate::selection::is_in_selection;
use edit_terms::{Pos, Region};

/// True exactly for a place of the whole shape.
pub(crate) fn is_in_whole(region: &Region, p: &Place) -> bool
    ensures { result ≡ is_in_whole region.now (pos_of p.now) }
{
    match region {
        Region::Selected(selection) => is_in_selection(selection, p),
        Region::Walls(selection) => is_in_selection(selection, p),
        Region::Faces(selection) => is_in_selection(selection, p),
        Region::Ball { centre, radius, .. } => is_in_ball(centre, *radius, p),
        Region::Tube {
            centre,
            radius,
            height,
            ..
        } => is_in_tube(centre, *radius, *height, p),
    }
}

fn is_in_ball(centre: &Pos, radius: u32, p: &Place) -> bool
    ensures { result ≡ is_in_ball centre.now radius (pos_of p.now) }
{
    4 * distance(centre, p) <= square(2 * u64::from(radius) + 1)
}

fn is_in_tube(centre: &Pos, radius: u32, height: u32, p: &Place) -> bool
    ensures { result ≡ is_in_tube centre.now radius height (pos_of p.now) }
{
    is_in_circle(centre, radius, p) && is_from_y(centre, height, p)
}

fn is_in_circle(centre: &Pos, radius: u32, p: &Place) -> bool
    ensures { result ≡ is_in_reach radius (flat_distance centre.now (pos_of p.now)) }
{
    4 * flat_distance(centre, p) <= square(2 * u64::from(radius) + 1)
}

fn is_from_y(centre: &Pos, height: u32, p: &Place) -> bool
    ensures { result ≡ is_from centre.now.y height p.now.y }
{
    let low = i64::from(centre.y);
    low <= p.y && p.y < low + i64::from(height)
}
