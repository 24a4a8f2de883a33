//! Copies of tags.

ghost use Rattle.std.specs.Prelude.{◌≡◌, IfOk};

use crate::tag::{Named, Tag};
use crate::values::Values;
use memory::Memory;
use sqlite_items::Items;
use std::alloc::{AllocError, Global};

/// The same values once more.
fn copied_values<T: Copy>(alloc: Global, values: &Values<T>) -> Result<Values<T>, AllocError>
    ensures { IfOk result (λ copy. copy ≡ values.now) }
{
    Ok(Values::from_vec(Vec::from_slice(alloc, values.as_slice())?))
}

/// The same tag once more.
#[cycle(copied)]
fn copied_tag(alloc: Global, tag: &Tag) -> Result<Tag, AllocError>
    ensures { IfOk result (λ copy. copy ≡ tag.now) }
{
    match tag {
        Tag::Byte(number) => Ok(Tag::Byte(*number)),
        Tag::Short(number) => Ok(Tag::Short(*number)),
        Tag::Int(number) => Ok(Tag::Int(*number)),
        Tag::Long(number) => Ok(Tag::Long(*number)),
        Tag::Float(bits) => Ok(Tag::Float(*bits)),
        Tag::Double(bits) => Ok(Tag::Double(*bits)),
        Tag::ByteArray(bytes) => Ok(Tag::ByteArray(copied_values(alloc, bytes)?)),
        Tag::Str(text) => Ok(Tag::Str(copied_values(alloc, text)?)),
        Tag::List { element, items } => Ok(Tag::List {
            element: *element,
            items: copied_items(alloc, items.as_slice())?,
        }),
        Tag::Compound(row) => Ok(Tag::Compound(copied_row(alloc, row.as_slice())?)),
        Tag::IntArray(numbers) => Ok(Tag::IntArray(copied_values(alloc, numbers)?)),
        Tag::LongArray(numbers) => Ok(Tag::LongArray(copied_values(alloc, numbers)?)),
    }
}

/// The items of a list once more.
#[cycle(copied)]
fn copied_items(alloc: Global, items: &[Tag]) -> Result<Items<Tag>, AllocError>
    ensures { IfOk result (λ copy. copy ≡ items.now) }
{
    let mut copy = Vec::with_capacity(alloc, items.len())?;
    for item in items {
        copy.push(copied_tag(alloc, item)?)?;
    }
    Ok(Items::from_vec(copy))
}

/// The named tags of a compound once more.
#[cycle(copied)]
fn copied_row(alloc: Global, row: &[Named]) -> Result<Items<Named>, AllocError>
    ensures { IfOk result (λ copy. copy ≡ row.now) }
{
    let mut copy = Vec::with_capacity(alloc, row.len())?;
    for named in row {
        let name = copied_values(alloc, &named.name)?;
        let tag = copied_tag(alloc, &named.tag)?;
        copy.push(Named { name, tag })?;
    }
    Ok(Items::from_vec(copy))
}

impl Tag {
    /// The same tag once more.
    pub fn copy(&self, alloc: Global) -> Result<Tag, Memory>
        ensures { IfOk result (λ copy. copy ≡ self.now) }
    {
        Ok(copied_tag(alloc, self)?)
    }
}
