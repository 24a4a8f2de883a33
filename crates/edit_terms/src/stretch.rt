use crate::world_box::WorldBox;

/// So many blocks of a box in its index order, from a place of it on: what a list of cells goes on with.
///
/// The box is of 1 to 33,554,432 blocks, as that of a world or a chunk's part of one.
#[derive(Clone, Copy, Debug, PartialEq, Eq)]
pub struct Stretch {
    /// The box that the blocks are of.
    pub part: WorldBox,
    /// The place of the first of them in the box.
    pub start: u32,
    /// How many they are, at least 1.
    pub count: u32,
}
