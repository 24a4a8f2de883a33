//! World files of the Sponge Schematic Specification 2, uncompressed, read and written byte by byte.
//!
//! It serves the top calls, which load a world, edit it and save it. It promises that a file is read as
//! exactly the world and the further tags that its bytes stand for, or refused with its first fault, and
//! that what is written is exactly the file of a world and of the tags that were read beside it.
#![tactic(auto)]

mod block_data;
mod carried;
mod fault;
mod fields;
mod file_tags;
mod header;
mod loaded;
mod loading;
mod numbering;
mod others;
mod palette;
mod parts;
mod places;
mod reading;
mod root;
mod round_trip;
mod varint;
mod writing;

pub use carried::Carried;
pub use fault::{Field, WorldFault};
pub use loaded::World;
pub use memory::Memory;
pub use reading::read_world;
pub use round_trip::files_round_trip;
pub use writing::write_world;
