//! Which places belong to a selection.
ghost use Rattle.std.specs.Prelude.{◌≡◌, int_le};
ghost use Rattle.edit_terms.specs.declared.region.Kind.TheVariants.{Cuboid, Sphere, Cylinder};
ghost use Rattle.edit_terms.specs.Region.{is_between, flat_distance, is_in_shape, is_selected};
ghost use Rattle.plain_terms.specs.Places.{pos_of};

use crate::beside::place_of;
use crate::gap::{distance, flat_distance};
use crate::place::Place;
use edit_terms::{Kind, Pos, Selection};

/// True exactly for a position of the selection.
pub fn is_selected(selection: &Selection, p: &Pos) -> bool
    ensures { result ≡ is_selected selection.now p.now }
{
    is_in_selection(selection, &place_of(p))
}

/// True exactly for a place of the selection.
pub(crate) fn is_in_selection(selection: &Selection, p: &Place) -> bool
    ensures { result ≡ is_selected selection.now (pos_of p.now) }
{
    let (first, second) = (&selection.first, &selection.second);
    match selection.kind {
        Kind::Cuboid => is_in_cuboid(first, second, p),
        Kind::Sphere => is_in_sphere(first, second, p),
        Kind::Cylinder => is_in_cylinder(first, second, p),
    }
}

fn is_in_cuboid(first: &Pos, second: &Pos, p: &Place) -> bool
    ensures { result ≡ is_in_shape Cuboid first.now second.now (pos_of p.now) }
{
    is_between_x(first, second, p)
        && is_between_y(first, second, p)
        && is_between_z(first, second, p)
}

fn is_in_sphere(first: &Pos, second: &Pos, p: &Place) -> bool
    ensures { result ≡ is_in_shape Sphere first.now second.now (pos_of p.now) }
{
    distance(first, p) <= distance(first, &place_of(second))
}

fn is_in_cylinder(first: &Pos, second: &Pos, p: &Place) -> bool
    ensures { result ≡ is_in_shape Cylinder first.now second.now (pos_of p.now) }
{
    is_in_disc(first, second, p) && is_between_y(first, second, p)
}

fn is_in_disc(first: &Pos, second: &Pos, p: &Place) -> bool
    ensures { result ≡ int_le (flat_distance first.now (pos_of p.now)) (flat_distance first.now second.now) }
{
    flat_distance(first, p) <= flat_distance(first, &place_of(second))
}

fn is_between_x(a: &Pos, b: &Pos, p: &Place) -> bool
    ensures { result ≡ is_between a.now.x b.now.x p.now.x }
{
    let (first, second) = (i64::from(a.x), i64::from(b.x));
    (first <= p.x && p.x <= second) || (second <= p.x && p.x <= first)
}

fn is_between_y(a: &Pos, b: &Pos, p: &Place) -> bool
    ensures { result ≡ is_between a.now.y b.now.y p.now.y }
{
    let (first, second) = (i64::from(a.y), i64::from(b.y));
    (first <= p.y && p.y <= second) || (second <= p.y && p.y <= first)
}

fn is_between_z(a: &Pos, b: &Pos, p: &Place) -> bool
    ensures { result ≡ is_between a.now.z b.now.z p.now.z }
{
    let (first, second) = (i64::from(a.z), i64::from(b.z));
    (first <= p.z && p.z <= second) || (second <= p.z && p.z <= first)
}
