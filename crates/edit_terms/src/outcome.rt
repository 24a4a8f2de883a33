use crate::grid::Grid;
use crate::items::Items;
use crate::step::Refusal;

/// What a command is answered.
#[derive(Clone, Copy, Debug, PartialEq, Eq)]
pub enum Reply {
    /// It was taken.
    Accepted,
    /// It changed so many positions.
    Changed(u32),
    /// It was refused.
    Refused(Refusal),
}

/// What a run leaves: the one order of all commands as player numbers, each command's reply in that
/// order, and the final world.
#[derive(Debug, Drop)]
pub struct Outcome {
    pub order: Items<u32>,
    pub replies: Items<Reply>,
    pub world: Grid,
}
