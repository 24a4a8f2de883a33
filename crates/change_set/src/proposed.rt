use edit_terms::{Content, Pos};

/// A change, or one that is proposed: a position, and the contents before and after, which may be equal.
#[derive(Debug, Drop)]
pub struct Proposed {
    pub at: Pos,
    pub before: Content,
    pub after: Content,
}
