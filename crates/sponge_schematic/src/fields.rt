//! Looking up the tags of a schematic, and taking what each must hold.

ghost use Rattle.std.specs.Prelude.{◌≡◌, find, option_copied};
ghost use Rattle.sponge_schematic.specs.Answers.{Gives};
ghost use Rattle.sponge_schematic.specs.Fields.{field_name, has_name, tag_named, required, int_of, size_of, bytes_of, row_of, int_field, size_field};

use crate::fault::{Field, WorldFault};
use nbt_tags::{Named, Tag};

fn entry_named<'a>(row: &'a [Named], name: &[u8]) -> Option<&'a Named>
    ensures { option_copied result ≡ find (has_name name.now) row.now }
{
    row.iter().find(|entry| entry.name.as_slice() == name)
}

/// The tag of this name.
fn tag_named<'a>(row: &'a [Named], name: &[u8]) -> Option<&'a Tag>
    ensures { option_copied result ≡ tag_named name.now row.now }
{
    match entry_named(row, name) {
        None => None,
        Some(entry) => Some(&entry.tag),
    }
}

/// The tag of a field, if it is there.
pub(crate) fn field(row: &[Named], field: Field) -> Option<&Tag>
    ensures { option_copied result ≡ tag_named (field_name field) row.now }
{
    tag_named(row, field.name().as_bytes())
}

/// The tag of a field, which must be there.
pub(crate) fn required(row: &[Named], field: Field) -> Result<&Tag, WorldFault>
    ensures { Gives (λ x. x.now) result (required field row.now) }
{
    match tag_named(row, field.name().as_bytes()) {
        None => Err(WorldFault::Missing(field)),
        Some(tag) => Ok(tag),
    }
}

/// The number of an Int.
pub(crate) fn int_of(field: Field, tag: &Tag) -> Result<i32, WorldFault>
    ensures { Gives (λ x. x) result (int_of field tag.now) }
{
    match tag {
        Tag::Int(number) => Ok(*number),
        _ => Err(WorldFault::WrongType(field)),
    }
}

/// The number of a Short, read as unsigned.
fn size_of(field: Field, tag: &Tag) -> Result<u16, WorldFault>
    ensures { Gives (λ x. x) result (size_of field tag.now) }
{
    match tag {
        Tag::Short(number) => Ok(number.cast_unsigned()),
        _ => Err(WorldFault::WrongType(field)),
    }
}

/// The bytes of a ByteArray.
pub(crate) fn bytes_of(field: Field, tag: &Tag) -> Result<&[u8], WorldFault>
    ensures { Gives (λ x. x.now) result (bytes_of field tag.now) }
{
    match tag {
        Tag::ByteArray(bytes) => Ok(bytes.as_slice()),
        _ => Err(WorldFault::WrongType(field)),
    }
}

/// The named tags of a Compound.
pub(crate) fn row_of(field: Field, tag: &Tag) -> Result<&[Named], WorldFault>
    ensures { Gives (λ x. x.now) result (row_of field tag.now) }
{
    match tag {
        Tag::Compound(row) => Ok(row.as_slice()),
        _ => Err(WorldFault::WrongType(field)),
    }
}

/// The number of a field that is an Int.
#[tactic(auto, unfolding(crate::specs::Fields::int_field))]
pub(crate) fn int_field(row: &[Named], field: Field) -> Result<i32, WorldFault>
    ensures { Gives (λ x. x) result (int_field field row.now) }
{
    let tag = required(row, field)?;
    int_of(field, tag)
}

/// The number of a field that is a Short, read as unsigned.
#[tactic(auto, unfolding(crate::specs::Fields::size_field))]
pub(crate) fn size_field(row: &[Named], field: Field) -> Result<u16, WorldFault>
    ensures { Gives (λ x. x) result (size_field field row.now) }
{
    let tag = required(row, field)?;
    size_of(field, tag)
}
