use crate::block_state::BlockState;
use crate::direction::Direction;
use crate::grid::Grid;
use crate::items::{Items, Name};
use crate::mask::Mask;
use crate::pattern::Pattern;
use crate::pos::Pos;
use crate::region::Kind;

/// A command of a script. Counts are 1 to 1,000, radii 0 to 1,000 and heights 1 to 4,096.
#[derive(Drop)]
pub enum Command {
    /// `//pos1`: sets the selection's first position.
    Pos1 {
        at: Pos,
    },
    /// `//pos2`: sets the selection's second position.
    Pos2 {
        at: Pos,
    },
    /// `at`: sets the placement position.
    Place {
        at: Pos,
    },
    /// `//sel`: sets the selection's shape and keeps its positions.
    Sel {
        kind: Kind,
    },
    /// `block`: puts a state at one position.
    Block {
        at: Pos,
        state: BlockState,
    },
    /// `//set`: fills the selection.
    Set {
        pattern: Pattern,
    },
    /// `//walls`: fills the selection's walls.
    Walls {
        pattern: Pattern,
    },
    /// `//faces`: fills the selection's faces.
    Faces {
        pattern: Pattern,
    },
    /// `//replace`: fills the selection where the mask holds; without a mask's word it is `#existing`.
    Replace {
        mask: Mask,
        pattern: Pattern,
    },
    /// `//sphere` and, hollow, `//hsphere`: fills a ball round the placement position.
    Sphere {
        pattern: Pattern,
        radius: u32,
        hollow: bool,
    },
    /// `//cyl` and, hollow, `//hcyl`: fills an upright cylinder on the placement position.
    Cyl {
        pattern: Pattern,
        radius: u32,
        height: u32,
        hollow: bool,
    },
    /// `//stack`: repeats the selection so many times in a direction.
    Stack {
        count: u32,
        to: Direction,
    },
    /// `//move`: moves the selection so many blocks in a direction.
    Move {
        count: u32,
        to: Direction,
    },
    /// `//copy`: copies the selection to the clipboard.
    Copy,
    /// `//cut`: copies the selection to the clipboard and leaves air.
    Cut,
    /// `//paste`: puts the clipboard at the placement position, with `-a` without its air.
    Paste {
        skip_air: bool,
    },
    /// `//rotate`: turns the clipboard by so many quarters about y, 1 to 3.
    Rotate {
        quarters: u8,
    },
    /// `//flip`: flips the clipboard along a direction.
    Flip {
        to: Direction,
    },
    /// `//gmask`: sets the mask of all edits, or drops it.
    Gmask {
        mask: Option<Mask>,
    },
    /// `//undo`: takes back so many edits.
    Undo {
        count: u32,
    },
    /// `//redo`: does so many edits again that were taken back.
    Redo {
        count: u32,
    },
}

/// A command and the line of the script that it stands in, from 1.
#[derive(Drop)]
pub struct Line {
    pub number: u32,
    pub command: Command,
}

/// One player's commands in order, at most 10,000.
#[derive(Drop)]
pub struct Script {
    pub player: Name,
    pub lines: Items<Line>,
}

/// What a run starts from: the opening world, the players' scripts, the seed of random choices and how
/// many edits each player's history keeps.
#[derive(Drop)]
pub struct Case {
    pub opening: Grid,
    pub scripts: Items<Script>,
    pub seed: u64,
    pub depth: u32,
}
