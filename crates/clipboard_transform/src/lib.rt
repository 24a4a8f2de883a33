//! Turns and flips of a clipboard: where they send a relative position, from where they bring it, and the
//! bounds of what was copied.
//!
//! It serves plans, which ask where a clipboard lies, and jobs, which look up what it has at a position. The
//! forward and the inverse transform undo each other.
#![tactic(auto)]

mod bounds;
mod box_turning;
mod compose;
mod placed;
mod placing;
mod relative_box;
mod turning;

pub use bounds::clip_box;
pub use compose::{then_flip, then_turn};
pub use placed::placed_extent;
pub use placing::{place, source};
pub use relative_box::RelativeBox;
