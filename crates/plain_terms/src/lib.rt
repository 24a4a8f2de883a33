//! Regions, masks, patterns and clipboards at one position of a world, evaluated plainly.
//!
//! The reference execution is made of it. Each call has the definition of `edit_terms` as its contract and
//! a body that says the same in the shortest way, so that faster bodies can be tested against it.
#![tactic(auto)]

mod beside;
mod blocks;
mod choice;
mod clipboard;
mod copied;
mod draw;
mod gap;
mod leaf;
mod likeness;
mod mask;
mod on_map;
mod pasted;
mod pattern;
mod place;
mod probe;
mod probed;
mod probed_selection;
mod region;
mod restating;
mod scene;
mod selection;
mod tile;
mod whole;

pub use blocks::Blocks;
pub use clipboard::Clipboard;
pub use mask::is_allowed;
pub use memory::Memory;
pub use pattern::pattern_value;
pub use region::is_inside;
pub use scene::Scene;
pub use selection::is_selected;
