//! Positions counted from a place.
ghost use Rattle.std.specs.Prelude.{◌≡◌, true, negsuc, ◌-ℤ◌};
ghost use Rattle.edit_terms.specs.Area.{is_from, holds};
ghost use Rattle.edit_terms.specs.Clipboard.{placed_at, relative_to};
ghost use Rattle.clipboard_transform.specs.Bounds.{corners};
ghost use Rattle.region_shapes.specs.Extents.{extent_of};
ghost use Rattle.plain_terms.specs.Copies.{reach};

use clipboard_transform::{RelativeBox, placed_extent};
use edit_terms::Pos;
use region_shapes::{Extent, is_in_extent};

/// True exactly where a position lies so near to a place that a clipboard may have a block for it.
#[tactic(auto, using(crate::proofs::PasteLemmas::in_reach))]
pub(crate) fn is_in_reach(place: &Pos, p: &Pos) -> bool
    ensures { result ≡ holds reach (relative_to place.now p.now) }
{
    let near = reach_around(place);
    is_in_extent(&near, p)
}

/// The positions in reach of a place.
fn reach_around(place: &Pos) -> Extent
    ensures { result ≡ extent_of (record reach { least = placed_at place.now reach.least }) }
{
    placed_extent(place, &reach())
}

/// The relative positions in reach.
fn reach() -> RelativeBox
    ensures { result ≡ corners reach }
{
    RelativeBox {
        least: Pos {
            x: -134_217_728,
            y: -134_217_728,
            z: -134_217_728,
        },
        greatest: Pos {
            x: 134_217_728,
            y: 134_217_728,
            z: 134_217_728,
        },
    }
}

/// A position in reach, counted from the place.
pub(crate) fn relative_to(place: &Pos, p: &Pos) -> Pos
    requires { holds reach (relative_to place.now p.now) ≡ true }
    ensures { result ≡ relative_to place.now p.now }
{
    Pos {
        x: relative_x(place, p),
        y: relative_y(place, p),
        z: relative_z(place, p),
    }
}

fn relative_x(place: &Pos, p: &Pos) -> i32
    requires { is_from (negsuc 134217727) 268435457 (p.now.x -ℤ place.now.x) ≡ true }
    ensures { result ≡ p.now.x -ℤ place.now.x }
{
    (i64::from(p.x) - i64::from(place.x)) as i32
}

fn relative_y(place: &Pos, p: &Pos) -> i32
    requires { is_from (negsuc 134217727) 268435457 (p.now.y -ℤ place.now.y) ≡ true }
    ensures { result ≡ p.now.y -ℤ place.now.y }
{
    (i64::from(p.y) - i64::from(place.y)) as i32
}

fn relative_z(place: &Pos, p: &Pos) -> i32
    requires { is_from (negsuc 134217727) 268435457 (p.now.z -ℤ place.now.z) ≡ true }
    ensures { result ≡ p.now.z -ℤ place.now.z }
{
    (i64::from(p.z) - i64::from(place.z)) as i32
}
