//! Why a world's file was not read.

ghost use Rattle.std.specs.Prelude.{◌≡◌};
ghost use Rattle.sponge_schematic.specs.declared.fault.WorldFault.TheVariants as faults;
ghost use Rattle.sponge_schematic.specs.Fields.{field_name};

use block_state::StateFault;
use memory::Memory;
use nbt_tags::NbtFault;
use std::alloc::{AllocError, AllocFailed};
use std::fmt;
use thiserror::Error;

/// A tag that a schematic has by its name.
#[derive(Clone, Copy, Debug, PartialEq, Eq)]
pub enum Field {
    Version,
    DataVersion,
    Width,
    Height,
    Length,
    Offset,
    Palette,
    BlockData,
    BlockEntities,
}

impl Field {
    /// The name of the tag.
    pub fn name(self) -> &'static str
        ensures { result.now ≡ field_name self }
    {
        match self {
            Field::Version => "Version",
            Field::DataVersion => "DataVersion",
            Field::Width => "Width",
            Field::Height => "Height",
            Field::Length => "Length",
            Field::Offset => "Offset",
            Field::Palette => "Palette",
            Field::BlockData => "BlockData",
            Field::BlockEntities => "BlockEntities",
        }
    }
}

impl fmt::Display for Field {
    ghost use Rattle.std.specs.Prelude.{Some};

    ghost output = { λ field. Some (field_name field) };

    fn fmt<W: fmt::Write>(&self, f: &mut fmt::Formatter<W>) -> fmt::Result {
        f.write_str(self.name())
    }
}

/// The first fault of a world's file, in the order in which it is looked at, or a refused allocation.
#[derive(Clone, Copy, Debug, PartialEq, Eq, Error)]
pub enum WorldFault {
    /// The first two bytes are those of a compressed file.
    #[error("compressed")]
    Compressed,
    /// The bytes are no named tag.
    #[error("{0}")]
    Nbt(NbtFault),
    /// The root is no compound of the name `Schematic`.
    #[error("not a schematic")]
    NotSchematic,
    /// The tag isn't there.
    #[error("missing {0}")]
    Missing(Field),
    /// The tag has another type than the format says, or an entry of it has.
    #[error("wrong type {0}")]
    WrongType(Field),
    /// The format's version, which isn't 2.
    #[error("version {0}")]
    Version(i32),
    /// A size is 0.
    #[error("empty")]
    Empty,
    /// The box has more than 33,554,432 blocks.
    #[error("too large {volume}")]
    TooLarge { volume: u64 },
    /// A block of the box is off the map.
    #[error("out of range")]
    OutOfRange,
    /// The text of a palette's entry, by its place in the palette, stands for no block state.
    #[error("palette entry {index}: {fault}")]
    BadState { index: u32, fault: StateFault },
    /// No palette entry has the number of a block, which is told by its index.
    #[error("cell {cell}: no palette number {value}")]
    BadIndex { cell: u32, value: u32 },
    /// The block data end after so many whole blocks.
    #[error("block data short after {cells} cells")]
    ShortData { cells: u32 },
    /// So many bytes stand behind the last block.
    #[error("block data has {bytes} bytes too many")]
    LongData { bytes: u32 },
    /// The varint that begins at this byte of the block data has a fifth byte above 7.
    #[error("bad varint at {byte}")]
    BadVarint { byte: u32 },
    /// An allocation was refused.
    #[error("memory")]
    Memory,
}

impl From<Memory> for WorldFault {
    ghost from_gives = { λ _ e. e ≡ faults.Memory };

    fn from(_error: Memory) -> WorldFault {
        WorldFault::Memory
    }
}

impl From<AllocError> for WorldFault {
    ghost from_gives = { λ _ e. e ≡ faults.Memory };

    fn from(_error: AllocError) -> WorldFault {
        WorldFault::Memory
    }
}

impl<T: Drop> From<AllocFailed<T>> for WorldFault {
    ghost from_gives = { λ _ e. e ≡ faults.Memory };

    fn from(_error: AllocFailed<T>) -> WorldFault {
        WorldFault::Memory
    }
}
