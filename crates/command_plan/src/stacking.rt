//! Extents that are moved or stacked.

ghost use Rattle.std.specs.Prelude.{◌≡◌, ◌*◌, ◌≤◌};
ghost use Rattle.region_shapes.specs.Interval.{size, IsNear};
ghost use Rattle.region_shapes.specs.Extents.{IsExtentNear};
ghost use Rattle.command_plan.specs.Stacks.{moved_extent, copies_behind, copies_before, stacked_extent};

use edit_terms::Direction;
use region_shapes::{Extent, Interval, shifted};

/// An extent so many blocks on in a direction.
pub(crate) fn moved(extent: &Extent, to: Direction, count: u32) -> Extent
    requires { IsExtentNear extent.now }
    ensures { result ≡ moved_extent to count extent.now }
{
    let by = i64::from(count);
    match to {
        Direction::North => Extent {
            z: shifted(&extent.z, -by),
            ..*extent
        },
        Direction::South => Extent {
            z: shifted(&extent.z, by),
            ..*extent
        },
        Direction::East => Extent {
            x: shifted(&extent.x, by),
            ..*extent
        },
        Direction::West => Extent {
            x: shifted(&extent.x, -by),
            ..*extent
        },
        Direction::Up => Extent {
            y: shifted(&extent.y, by),
            ..*extent
        },
        Direction::Down => Extent {
            y: shifted(&extent.y, -by),
            ..*extent
        },
    }
}

/// How many numbers an interval has.
fn size(interval: &Interval) -> u64
    requires { IsNear interval.now }
    ensures value { result ≡ size interval.now }
    ensures small { result ≤ 137438953472 }
{
    if interval.to < interval.from {
        return 0;
    }
    (interval.to - interval.from) as u64
}

/// How many numbers so many copies have.
fn size_of_copies(interval: &Interval, count: u32) -> u64
    requires near { IsNear interval.now }
    requires few { count ≤ 1000 }
    ensures value { result ≡ count * size interval.now }
    ensures small { result ≤ 137438953472000 }
{
    u64::from(count) * size(interval)
}

/// What so many copies fill that lie one behind the other.
fn copies_behind(interval: &Interval, count: u32) -> Interval
    requires near { IsNear interval.now }
    requires few { count ≤ 1000 }
    ensures { result ≡ copies_behind count interval.now }
{
    let far = size_of_copies(interval, count);
    Interval {
        from: interval.to,
        to: interval.to + far as i64,
    }
}

/// What so many copies fill that lie one before the other.
fn copies_before(interval: &Interval, count: u32) -> Interval
    requires near { IsNear interval.now }
    requires few { count ≤ 1000 }
    ensures { result ≡ copies_before count interval.now }
{
    let far = size_of_copies(interval, count);
    Interval {
        from: interval.from - far as i64,
        to: interval.from,
    }
}

/// What the copies of a stack fill: they lie side by side.
pub(crate) fn stacked(extent: &Extent, to: Direction, count: u32) -> Extent
    requires near { IsExtentNear extent.now }
    requires few { count ≤ 1000 }
    ensures { result ≡ stacked_extent to count extent.now }
{
    match to {
        Direction::North => Extent {
            z: copies_before(&extent.z, count),
            ..*extent
        },
        Direction::South => Extent {
            z: copies_behind(&extent.z, count),
            ..*extent
        },
        Direction::East => Extent {
            x: copies_behind(&extent.x, count),
            ..*extent
        },
        Direction::West => Extent {
            x: copies_before(&extent.x, count),
            ..*extent
        },
        Direction::Up => Extent {
            y: copies_behind(&extent.y, count),
            ..*extent
        },
        Direction::Down => Extent {
            y: copies_before(&extent.y, count),
            ..*extent
        },
    }
}
