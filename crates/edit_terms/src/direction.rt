/// A direction: north is -z, south +z, east +x, west -x, up +y and down -y.
#[derive(Clone, Copy, Debug, PartialEq, Eq)]
pub enum Direction {
    North,
    South,
    East,
    West,
    Up,
    Down,
}
