//! Named binary tags (NBT) of Minecraft's Java edition, uncompressed, both ways. The crate serves
//! readers and writers of world files, whose bytes may be hostile. `decode` gives exactly the tag that
//! the bytes spell, or else exactly their first fault and its place, and `encode` gives the one written
//! spelling of a tag, unless an allocation is refused.
#![tactic(auto)]

mod arrays;
mod copying;
mod ending;
mod fault;
mod fields;
mod flaw;
mod kind;
mod laws;
mod names;
mod payload;
mod put;
mod reading;
mod room;
mod tag;
mod values;
mod write;
mod writing;

pub use fault::NbtFault;
pub use laws::{round_trip, steps_are_enough};
pub use memory::Memory;
pub use reading::{decode, decode_row, read_row};
pub use room::room_for;
pub use sqlite_items::Items;
pub use tag::{Named, Tag};
pub use values::Values;
pub use writing::{append_row, encode, encode_row};
