//! A change of a world's block.

/// A place of the list of a world's blocks, and the numbers of its content before and after a change.
#[derive(Clone, Copy, Debug)]
pub struct CellChange {
    pub index: u32,
    pub before: u32,
    pub after: u32,
}
