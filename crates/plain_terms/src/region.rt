//! Which positions belong to a region.
ghost use Rattle.std.specs.Prelude.{◌≡◌};
ghost use Rattle.std.specs.List.{list_all};
ghost use Rattle.edit_terms.specs.Neighbour.{neighbour, horizontal, directions};
ghost use Rattle.edit_terms.specs.Region.{is_in_whole, is_at_edge, is_inside};

use crate::beside::{above, below, east, north, place_of, south, west};
use crate::selection::is_selected;
use crate::whole::is_in_whole;
use edit_terms::{Pos, Region};

/// True exactly for a position of the region.
pub fn is_inside(region: &Region, p: &Pos) -> bool
    ensures { result ≡ is_inside region.now p.now }
{
    match region {
        Region::Selected(selection) => is_selected(selection, p),
        Region::Walls(_) => is_at_side(region, p),
        Region::Faces(_) => is_at_face(region, p),
        Region::Ball { hollow: true, .. } => is_at_face(region, p),
        Region::Tube { hollow: true, .. } => is_at_side(region, p),
        Region::Ball { .. } => is_in_whole(region, &place_of(p)),
        Region::Tube { .. } => is_in_whole(region, &place_of(p)),
    }
}

/// True exactly for a position of the whole shape with a horizontal neighbour outside it.
fn is_at_side(region: &Region, p: &Pos) -> bool
    ensures { result ≡ is_at_edge horizontal (is_in_whole region.now) p.now }
{
    is_in_whole(region, &place_of(p)) && !is_walled(region, p)
}

/// True exactly for a position of the whole shape with one of its six neighbours outside it.
fn is_at_face(region: &Region, p: &Pos) -> bool
    ensures { result ≡ is_at_edge directions (is_in_whole region.now) p.now }
{
    is_in_whole(region, &place_of(p)) && !is_enclosed(region, p)
}

fn is_walled(region: &Region, p: &Pos) -> bool
    ensures { result ≡ list_all (λ to. is_in_whole region.now (neighbour to p.now)) horizontal }
{
    is_in_whole(region, &north(p))
        && is_in_whole(region, &south(p))
        && is_in_whole(region, &east(p))
        && is_in_whole(region, &west(p))
}

fn is_enclosed(region: &Region, p: &Pos) -> bool
    ensures { result ≡ list_all (λ to. is_in_whole region.now (neighbour to p.now)) directions }
{
    is_in_whole(region, &above(p)) && is_in_whole(region, &below(p)) && is_walled(region, p)
}
