use crate::pos::Pos;
use crate::region::Selection;
use crate::transform::Transform;

/// The id of a command: its player's number and its place in that player's script, both from 0.
#[derive(Clone, Copy, Debug, PartialEq, Eq)]
pub struct Source {
    pub player: u32,
    pub step: u32,
}

/// What a player's clipboard holds: which command copied it, which selection, from where its positions
/// are counted, and how it is turned.
#[derive(Clone, Copy, Debug, PartialEq, Eq)]
pub struct Clip {
    pub source: Source,
    pub from: Selection,
    pub origin: Pos,
    pub transform: Transform,
}
