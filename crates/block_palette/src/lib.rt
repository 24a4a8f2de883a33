//! Palettes: lists of distinct entries, which are numbered by their first appearance.
//!
//! Chunk sections, schematics and journals keep a block as the number of its entry in a palette. An
//! entry keeps its number for good, a new one goes last, and no two entries of a palette are equal.
#![tactic(auto)]

mod first_appearance;
mod palette;

pub use first_appearance::numbering_law;
pub use memory::Memory;
pub use palette::Palette;
