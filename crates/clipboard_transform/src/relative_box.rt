use edit_terms::Pos;

/// A box of relative positions, by its least and its greatest one; both are of the box.
#[derive(Clone, Copy, Debug, PartialEq, Eq)]
pub struct RelativeBox {
    pub least: Pos,
    pub greatest: Pos,
}
