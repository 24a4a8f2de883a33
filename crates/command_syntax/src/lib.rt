//! Reads a player's script from its bytes.
//!
//! It serves the crates that run scripts. Bytes are read as exactly the script that the definitions in
//! `specs/` give, which cut them into lines and words and judge each line alone, or refused with the first
//! fault from the top.
//!
//! A command is a word and the words behind it:
//!
//! | Command | Words behind it |
//! |---|---|
//! | `//pos1`, `//pos2`, `at` | POSITION |
//! | `//sel` | `cuboid`, `sphere` or `cyl` |
//! | `block` | POSITION STATE |
//! | `//set`, `//walls`, `//faces` | PATTERN |
//! | `//replace` | PATTERN, for the mask `#existing`, or MASK PATTERN |
//! | `//sphere`, `//hsphere` | PATTERN RADIUS |
//! | `//cyl`, `//hcyl` | PATTERN RADIUS, for a height of 1, or PATTERN RADIUS HEIGHT |
//! | `//stack`, `//move` | COUNT DIRECTION |
//! | `//copy`, `//cut` | none |
//! | `//paste` | none, or `-a` |
//! | `//rotate` | an angle of 90, 180 or 270 |
//! | `//flip` | DIRECTION |
//! | `//gmask` | none, or MASK |
//! | `//undo`, `//redo` | none, for 1, or COUNT |
//!
//! A number is an optional `-` and 1 to 10 digits. A POSITION is three numbers with commas between: x and z are
//! -33,554,432 to 33,554,431, and y is -2,048 to 2,047. A COUNT is 1 to 1,000, a RADIUS 0 to 1,000 and a HEIGHT 1 to
//! 4,096. A DIRECTION is `north`, `south`, `east`, `west`, `up` or `down`, or its first letter.
#![tactic(auto)]

mod arguments;
mod choice;
mod command;
mod fault;
mod line;
mod number;
mod player;
mod position;
mod script;
mod stop;
mod term;
mod verb;
mod words;

pub use block_state::TermFault;
pub use fault::{LineFault, ScriptFault};
pub use memory::Memory;
pub use script::read_script;
