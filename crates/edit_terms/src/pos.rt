ghost use Rattle.std.specs.Prelude.{◌≡◌};
ghost use Rattle.edit_terms.specs.Area.{map_area, is_on_map};

use crate::axis::{is_from_x, is_from_y, is_from_z};

/// A position of a block: x goes east, y up and z south.
#[derive(Clone, Copy, Debug, PartialEq, Eq)]
pub struct Pos {
    pub x: i32,
    pub y: i32,
    pub z: i32,
}

impl Pos {
    /// True exactly on the map: x and z from -33,554,432 to 33,554,431, y from -2,048 to 2,047.
    pub fn is_on_map(&self) -> bool
        ensures { result ≡ is_on_map self.now }
    {
        let map = least_on_map();
        is_from_x(&map, 67_108_864, self)
            && is_from_y(&map, 4_096, self)
            && is_from_z(&map, 67_108_864, self)
    }
}

/// The position of the map with the least coordinates.
pub(crate) fn least_on_map() -> Pos
    ensures { result ≡ map_area.least }
{
    Pos {
        x: -33_554_432,
        y: -2_048,
        z: -33_554_432,
    }
}
