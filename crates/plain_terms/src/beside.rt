//! The place of a position, and those beside it.
ghost use Rattle.std.specs.Prelude.{◌≡◌};
ghost use Rattle.edit_terms.specs.declared.direction.Direction.TheVariants.{North, South, East, West, Up, Down};
ghost use Rattle.edit_terms.specs.Neighbour.{neighbour};
ghost use Rattle.plain_terms.specs.Places.{pos_of};

use crate::place::Place;
use edit_terms::Pos;

/// A position as a place.
pub(crate) fn place_of(p: &Pos) -> Place
    ensures { pos_of result ≡ p.now }
{
    Place {
        x: i64::from(p.x),
        y: i64::from(p.y),
        z: i64::from(p.z),
    }
}

/// The place to the north.
pub(crate) fn north(p: &Pos) -> Place
    ensures { pos_of result ≡ neighbour North p.now }
{
    Place {
        x: i64::from(p.x),
        y: i64::from(p.y),
        z: i64::from(p.z) - 1,
    }
}

/// The place to the south.
pub(crate) fn south(p: &Pos) -> Place
    ensures { pos_of result ≡ neighbour South p.now }
{
    Place {
        x: i64::from(p.x),
        y: i64::from(p.y),
        z: i64::from(p.z) + 1,
    }
}

/// The place to the east.
pub(crate) fn east(p: &Pos) -> Place
    ensures { pos_of result ≡ neighbour East p.now }
{
    Place {
        x: i64::from(p.x) + 1,
        y: i64::from(p.y),
        z: i64::from(p.z),
    }
}

/// The place to the west.
pub(crate) fn west(p: &Pos) -> Place
    ensures { pos_of result ≡ neighbour West p.now }
{
    Place {
        x: i64::from(p.x) - 1,
        y: i64::from(p.y),
        z: i64::from(p.z),
    }
}

/// The place above.
pub(crate) fn above(p: &Pos) -> Place
    ensures { pos_of result ≡ neighbour Up p.now }
{
    Place {
        x: i64::from(p.x),
        y: i64::from(p.y) + 1,
        z: i64::from(p.z),
    }
}

/// The place below.
pub(crate) fn below(p: &Pos) -> Place
    ensures { pos_of result ≡ neighbour Down p.now }
{
    Place {
        x: i64::from(p.x),
        y: i64::from(p.y) - 1,
        z: i64::from(p.z),
    }
}
