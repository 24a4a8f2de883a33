//! The written spelling of tags, at the end of what is written.

ghost use Rattle.std.specs.Prelude.{◌≡◌, ◌++◌, ◌∷◌, [], OnOk};
ghost use Rattle.nbt_tags.specs.Written.{array_bytes, written_tag, written_payload, written, written_row};

use crate::put::{
    put_bytes, put_count, put_i8, put_i16, put_i32, put_i64, put_ints, put_longs, put_text,
    put_u32, put_u64,
};
use crate::tag::{Named, Tag};
use std::alloc::AllocError;

/// The type byte of a tag.
fn tag_byte(tag: &Tag) -> u8
    ensures { result ≡ (written_tag tag.now).byte }
{
    match tag {
        Tag::Byte(_) => 1,
        Tag::Short(_) => 2,
        Tag::Int(_) => 3,
        Tag::Long(_) => 4,
        Tag::Float(_) => 5,
        Tag::Double(_) => 6,
        Tag::ByteArray(_) => 7,
        Tag::Str(_) => 8,
        Tag::List { .. } => 9,
        Tag::Compound(_) => 10,
        Tag::IntArray(_) => 11,
        Tag::LongArray(_) => 12,
    }
}

/// The payload of a tag.
#[cycle(put)]
pub fn put_payload(out: &mut Vec<u8>, tag: &Tag) -> Result<(), AllocError>
    ensures { OnOk result (out.new.items ≡ out.old.items ++ written_payload tag.now) }
{
    match tag {
        Tag::Byte(number) => put_i8(out, number),
        Tag::Short(number) => put_i16(out, number),
        Tag::Int(number) => put_i32(out, number),
        Tag::Long(number) => put_i64(out, number),
        Tag::Float(bits) => put_u32(out, *bits),
        Tag::Double(bits) => put_u64(out, *bits),
        Tag::ByteArray(bytes) => put_bytes(out, bytes.as_slice()),
        Tag::Str(text) => put_text(out, text.as_slice()),
        Tag::List { element, items } => put_list(out, *element, items.as_slice()),
        Tag::Compound(row) => put_compound(out, row.as_slice()),
        Tag::IntArray(numbers) => put_ints(out, numbers.as_slice()),
        Tag::LongArray(numbers) => put_longs(out, numbers.as_slice()),
    }
}

/// The payload of a list.
#[cycle(put)]
fn put_list(out: &mut Vec<u8>, element: u8, items: &[Tag]) -> Result<(), AllocError>
    ensures { OnOk result
        (out.new.items ≡ out.old.items ++ element ∷ array_bytes written_payload items.now) }
{
    out.push(element)?;
    put_count(out, items.len())?;
    for item in items {
        put_payload(out, item)?;
    }
    Ok(())
}

/// The payload of a compound.
#[cycle(put)]
fn put_compound(out: &mut Vec<u8>, row: &[Named]) -> Result<(), AllocError>
    ensures { OnOk result (out.new.items ≡ out.old.items ++ (written_row row.now ++ 0 ∷ [])) }
{
    put_row(out, row)?;
    out.push(0)?;
    Ok(())
}

/// A row of named tags.
#[cycle(put)]
pub fn put_row(out: &mut Vec<u8>, row: &[Named]) -> Result<(), AllocError>
    ensures { OnOk result (out.new.items ≡ out.old.items ++ written_row row.now) }
{
    for entry in row {
        put_entry(out, entry)?;
    }
    Ok(())
}

/// A named tag.
#[cycle(put)]
pub fn put_entry(out: &mut Vec<u8>, entry: &Named) -> Result<(), AllocError>
    ensures { OnOk result (out.new.items ≡ out.old.items ++ written entry.now) }
{
    out.push(tag_byte(&entry.tag))?;
    put_text(out, entry.name.as_slice())?;
    put_payload(out, &entry.tag)
}
