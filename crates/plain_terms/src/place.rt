//! Places.
ghost use Rattle.std.specs.Prelude.{◌≤ℤ◌, pos, negsuc};

/// A position that may lie beyond 32 bits: one beside a position of the outermost coordinates, or one far
/// below or above the world.
#[derive(Clone, Copy, Debug)]
pub(crate) struct Place {
    pub(crate) x: i64,
    pub(crate) y: i64,
    pub(crate) z: i64,
    ghost least_x: { negsuc 34359738367 ≤ℤ x },
    ghost most_x: { x ≤ℤ pos 34359738368 },
    ghost least_y: { negsuc 34359738367 ≤ℤ y },
    ghost most_y: { y ≤ℤ pos 34359738368 },
    ghost least_z: { negsuc 34359738367 ≤ℤ z },
    ghost most_z: { z ≤ℤ pos 34359738368 },
}
