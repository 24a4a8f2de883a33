//! Columns of a world: what stands at the blocks of one chunk, kept as sections of sixteen layers, each
//! with its own palette and the numbers of its blocks packed into words.
#![tactic(auto)]

mod cells;
mod column;
mod cut;
mod numbering;
mod opening;
mod packed;
mod packing;
mod place;
mod section;
mod width;

pub use column::Column;
pub use memory::Memory;
pub use packed::Packed;
pub use section::Section;
pub use width::{Width, width_for};
