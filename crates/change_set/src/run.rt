use edit_terms::Pos;

/// A stretch of changes that have one content before and one after: the cells of a chunk from the first one
/// on in index order, as many as its length. The contents stand in the list that the changes keep of them.
#[derive(Clone, Copy, Debug, PartialEq, Eq)]
pub struct Run {
    /// The first cell.
    pub first: Pos,
    /// The place of its first change in the list of changes.
    pub start: u32,
    /// How many cells it has, at least 1.
    pub length: u32,
    /// The number of what stood at each of them.
    pub before: u32,
    /// The number of what stands there afterwards.
    pub after: u32,
}
