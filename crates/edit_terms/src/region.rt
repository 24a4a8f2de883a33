use crate::pos::Pos;

/// The shape of a selection.
#[derive(Clone, Copy, Debug, PartialEq, Eq)]
pub enum Kind {
    /// The positions between the two, on each axis.
    Cuboid,
    /// The positions no farther from the first than the second is.
    Sphere,
    /// The same over x and z alone, at the heights between the two.
    Cylinder,
}

/// A player's selection: its shape and its two positions.
#[derive(Clone, Copy, Debug, PartialEq, Eq)]
pub struct Selection {
    pub kind: Kind,
    pub first: Pos,
    pub second: Pos,
}

/// Where a fill goes. Whether a position has a neighbour outside a shape is judged by the shape alone,
/// whatever stands in the world.
#[derive(Clone, Copy, Debug, PartialEq, Eq)]
pub enum Region {
    /// The positions of a selection.
    Selected(Selection),
    /// The positions of a selection with a horizontal neighbour outside it.
    Walls(Selection),
    /// The positions of a selection with one of their six neighbours outside it.
    Faces(Selection),
    /// The positions whose centres lie at most half a block more than the radius from the centre's; of a
    /// hollow one those with one of their six neighbours outside the whole one.
    Ball {
        centre: Pos,
        radius: u32,
        hollow: bool,
    },
    /// The same over x and z alone, at so many heights from the centre's up; of a hollow one those with a
    /// horizontal neighbour outside the whole one.
    Tube {
        centre: Pos,
        radius: u32,
        height: u32,
        hollow: bool,
    },
}
