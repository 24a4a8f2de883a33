//! Extents that go on to the map's end.
ghost use Rattle.std.specs.Prelude.{◌≡◌};
ghost use Rattle.plain_effects.specs.Sections.{strip_of};

use edit_terms::Direction;
use region_shapes::{Extent, Interval};

/// An extent and all that lies on from it in a direction, up to the map's end.
pub(crate) fn strip(own: &Extent, to: Direction) -> Extent
    ensures { result ≡ strip_of to own.now }
{
    match to {
        Direction::North => Extent {
            z: Interval {
                from: -33_554_432,
                ..own.z
            },
            ..*own
        },
        Direction::South => Extent {
            z: Interval {
                to: 33_554_432,
                ..own.z
            },
            ..*own
        },
        Direction::East => Extent {
            x: Interval {
                to: 33_554_432,
                ..own.x
            },
            ..*own
        },
        Direction::West => Extent {
            x: Interval {
                from: -33_554_432,
                ..own.x
            },
            ..*own
        },
        Direction::Up => Extent {
            y: Interval { to: 2_048, ..own.y },
            ..*own
        },
        Direction::Down => Extent {
            y: Interval {
                from: -2_048,
                ..own.y
            },
            ..*own
        },
    }
}
