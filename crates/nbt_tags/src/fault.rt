//! Why bytes could not be read as named tags.

use thiserror::Error;

/// The first fault that is met by reading from the front, and its place in the bytes, or a refused
/// allocation.
#[derive(Clone, Copy, Debug, PartialEq, Eq, Error)]
pub enum NbtFault {
    /// The bytes end inside the field that begins at `at`: a type byte, a length or count, a name's
    /// bytes, a number, or an array's or string's whole content.
    #[error("nbt short at {at}")]
    Short { at: u32 },
    /// A type byte above 12, a root of type 0, or a list of type 0 with a positive count.
    #[error("nbt type at {at}")]
    BadType { at: u32 },
    /// A negative count of an array.
    #[error("nbt count at {at}")]
    BadCount { at: u32 },
    /// The type byte of a tag whose name an earlier tag of the same compound has.
    #[error("nbt duplicate at {at}")]
    Duplicate { at: u32 },
    /// The payload of a list or compound of depth 513.
    #[error("nbt deep at {at}")]
    Deep { at: u32 },
    /// The first byte behind the root.
    #[error("nbt trailing at {at}")]
    Trailing { at: u32 },
    /// An allocation was refused.
    #[error("memory")]
    Memory,
}
