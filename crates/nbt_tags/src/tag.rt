//! Tags and named tags.

use crate::values::Values;
use sqlite_items::Items;

/// A tag without its name. Bytes are 0 to 255, and names and strings are raw bytes.
#[cycle(tag)]
#[derive(Debug, Drop)]
pub enum Tag {
    Byte(i8),
    Short(i16),
    Int(i32),
    Long(i64),
    /// The bits of a 32-bit float.
    Float(u32),
    /// The bits of a 64-bit float.
    Double(u64),
    ByteArray(Values<u8>),
    Str(Values<u8>),
    /// Tags of one type, `element` being their type byte. An empty list may have any element type.
    List { element: u8, items: Items<Tag> },
    /// Named tags, no two of which have one name.
    Compound(Items<Named>),
    IntArray(Values<i32>),
    LongArray(Values<i64>),
}

/// A tag and its name.
#[cycle(tag)]
#[derive(Debug, Drop)]
pub struct Named {
    pub name: Values<u8>,
    pub tag: Tag,
}
