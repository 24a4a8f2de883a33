//! Block entities between the list `BlockEntities` of a schematic and the blocks that they belong to.
//! The crate serves readers and writers of schematics: `gather` takes a list apart into the entities of a box's
//! blocks and the entries that belong to none, and `spread` makes the list of a world anew. Each does exactly what
//! the definitions in `specs/` say, unless an allocation is refused.
#![tactic(auto)]

mod entry;
mod gathering;
mod grid_laws;
mod list_laws;
mod spreading;

pub use gathering::{Gathered, gather, is_entry_list};
pub use grid_laws::entities_of_grids;
pub use list_laws::lists_round_trip;
pub use memory::Memory;
pub use spreading::spread;

/// The type byte of a compound.
const COMPOUND: u8 = 10;
