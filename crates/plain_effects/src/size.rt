//! How long a selection's bounding box is.
ghost use Rattle.std.specs.Prelude.{◌≡◌, ◌≤◌, ◌^◌};
ghost use Rattle.edit_terms.specs.Frame.{frame_of_selection, size_along};
ghost use Rattle.region_shapes.specs.Extents.{IsExtentNear};
ghost use Rattle.region_shapes.specs.Interval.{size, IsNear};
ghost use Rattle.plain_effects.specs.Sections.{along};

use edit_terms::{Direction, Selection};
use region_shapes::{Extent, Interval, frame_of_selection};

/// How many blocks the bounding box of a selection has along a direction.
#[tactic(auto, using(crate::proofs::SizeLemmas::size_of_frame))]
pub(crate) fn size_along(to: Direction, from: &Selection) -> u64
    ensures value { result ≡ size_along to (frame_of_selection from.now) }
    ensures small { result ≤ 2 ^ 37 }
{
    let frame = frame_of_selection(from);
    size(&along(to, &frame))
}

/// The interval of an extent along a direction.
fn along(to: Direction, extent: &Extent) -> Interval
    requires { IsExtentNear extent.now }
    ensures value { result ≡ along to extent.now }
    ensures near { IsNear result }
{
    match to {
        Direction::North => extent.z,
        Direction::South => extent.z,
        Direction::East => extent.x,
        Direction::West => extent.x,
        Direction::Up => extent.y,
        Direction::Down => extent.y,
    }
}

/// How many numbers an interval has.
fn size(interval: &Interval) -> u64
    requires { IsNear interval.now }
    ensures value { result ≡ size interval.now }
    ensures small { result ≤ 2 ^ 37 }
{
    if interval.to < interval.from {
        return 0;
    }
    (interval.to - interval.from) as u64
}
