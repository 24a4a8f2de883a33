use edit_terms::Pos;

/// A run of positions along x: from the least one so many to the east.
#[derive(Clone, Copy, Debug, PartialEq, Eq)]
pub struct Span {
    pub least: Pos,
    pub count: u32,
}
