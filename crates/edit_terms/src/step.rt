use crate::block_state::BlockState;
use crate::clip::Clip;
use crate::direction::Direction;
use crate::items::Items;
use crate::mask::Mask;
use crate::pattern::Pattern;
use crate::pos::Pos;
use crate::region::{Region, Selection};

/// Why a command is refused in its session.
#[derive(Clone, Copy, Debug, PartialEq, Eq)]
pub enum Refusal {
    /// It needs a selection, and there is none.
    NoSelection,
    /// It needs a placement position, and there is none.
    NoPlace,
    /// It needs a clipboard, and there is none.
    NoClipboard,
    /// No edit stands before the history's cursor.
    NothingToUndo,
    /// No edit stands behind the history's cursor.
    NothingToRedo,
}

/// What a command does to the world, its selection and place fixed.
#[derive(Drop)]
pub enum Work {
    /// Fills a region with a pattern, where the mask holds if there is one.
    Fill {
        region: Region,
        mask: Option<Mask>,
        pattern: Pattern,
    },
    /// Repeats a selection so many times in a direction, each copy beside the last.
    Stack {
        from: Selection,
        count: u32,
        to: Direction,
    },
    /// Moves a selection so many blocks in a direction.
    Move {
        from: Selection,
        count: u32,
        to: Direction,
    },
    /// Copies a selection to the clipboard; the world stays.
    Copy {
        from: Selection,
    },
    /// Copies a selection to the clipboard and leaves air.
    Cut {
        from: Selection,
    },
    /// Puts the clipboard at a place, perhaps without its air.
    Paste {
        place: Pos,
        skip_air: bool,
    },
    /// Puts a state at one position.
    Put {
        at: Pos,
        state: BlockState,
    },
    /// Takes back the edits of these steps of the player's script, in this order.
    Undo {
        steps: Items<u32>,
    },
    /// Does the edits of these steps again, in this order.
    Redo {
        steps: Items<u32>,
    },
}

/// A resolved command: its work, and the global mask, the selection and the clipboard as they stand
/// before the command, whether it uses them or not.
#[derive(Drop)]
pub struct Spec {
    pub work: Work,
    pub global: Option<Mask>,
    pub selection: Option<Selection>,
    pub clip: Option<Clip>,
}

/// What a command is in its session.
#[derive(Drop)]
pub enum Step {
    /// It changes the session alone.
    Settled,
    /// It edits the world.
    Job(Spec),
    /// It is refused and changes nothing.
    Refused(Refusal),
}
