//! The payloads that hold no tags: numbers, strings and arrays.

ghost use Rattle.std.specs.Prelude.{◌≡◌, ◌≤◌, ◌<◌, ◌*◌, ◌^◌, length, IfOk};
ghost use Rattle.std.specs.Int.{w8, w16, w32, w64};
ghost use Rattle.nbt_tags.specs.Reading.{Gives, numbers_in, numbers_at, byte_array_at, string_at, int_array_at, long_array_at, signed_tag, bits_tag};

use crate::fields::{bytes_at, count_at, i8_at, i16_at, i32_at, i64_at, text_at, u32_at, u64_at};
use crate::flaw::Failure;
use crate::room::with_room;
use crate::tag::Tag;
use crate::values::Values;
use byteorder::{BigEndian, ByteOrder};
use std::alloc::{AllocError, Global};

/// A copy of these bytes, all of which are there.
pub fn copied(alloc: Global, bytes: &[u8]) -> Result<Values<u8>, AllocError>
    ensures { IfOk result (λ copy. copy ≡ bytes.now) }
{
    let mut copy = with_room(alloc, bytes.len(), bytes.len())?;
    copy.extend_from_slice(bytes)?;
    Ok(Values::from_vec(copy))
}

/// The numbers that the cells are worth, four bytes each.
fn ints_in(alloc: Global, count: usize, cells: &[u8]) -> Result<Values<i32>, AllocError>
    requires { 4 * count ≤ length cells.now }
    ensures { IfOk result (λ numbers. numbers ≡ numbers_in w32 count cells.now) }
{
    let mut numbers = with_room(alloc, count, cells.len())?;
    let mut left = cells;
    for _ in 0..count {
        let (first, others) = left.split_at(4);
        numbers.push(BigEndian::read_i32(first))?;
        left = others;
    }
    Ok(Values::from_vec(numbers))
}

/// The numbers that the cells are worth, eight bytes each.
fn longs_in(alloc: Global, count: usize, cells: &[u8]) -> Result<Values<i64>, AllocError>
    requires { 8 * count ≤ length cells.now }
    ensures { IfOk result (λ numbers. numbers ≡ numbers_in w64 count cells.now) }
{
    let mut numbers = with_room(alloc, count, cells.len())?;
    let mut left = cells;
    for _ in 0..count {
        let (first, others) = left.split_at(8);
        numbers.push(BigEndian::read_i64(first))?;
        left = others;
    }
    Ok(Values::from_vec(numbers))
}

#[tactic(auto, unfolding(crate::specs::Reading::byte_array_at))]
pub fn byte_array_at(alloc: Global, bytes: &[u8]) -> Result<(Tag, &[u8]), Failure>
    ensures { Gives (λ x. (x.0, x.1.now)) result (byte_array_at bytes.now) }
{
    let (count, rest) = count_at(bytes)?;
    let (items, rest) = bytes_at(count, rest)?;
    Ok((Tag::ByteArray(copied(alloc, items)?), rest))
}

#[tactic(auto, unfolding(crate::specs::Reading::string_at))]
pub fn string_at(alloc: Global, bytes: &[u8]) -> Result<(Tag, &[u8]), Failure>
    ensures { Gives (λ x. (x.0, x.1.now)) result (string_at bytes.now) }
{
    let (text, rest) = text_at(bytes)?;
    Ok((Tag::Str(copied(alloc, text)?), rest))
}

/// The bytes of an array of `count` numbers of four bytes each are one field.
#[tactic(auto, unfolding(crate::specs::Reading::numbers_at))]
fn ints_at(alloc: Global, count: usize, bytes: &[u8]) -> Result<(Values<i32>, &[u8]), Failure>
    requires { count < 2 ^ 31 }
    ensures { Gives (λ x. (x.0, x.1.now)) result (numbers_at w32 count bytes.now) }
{
    let (cells, rest) = bytes_at(4 * count, bytes)?;
    Ok((ints_in(alloc, count, cells)?, rest))
}

/// The bytes of an array of `count` numbers of eight bytes each are one field.
#[tactic(auto, unfolding(crate::specs::Reading::numbers_at))]
fn longs_at(alloc: Global, count: usize, bytes: &[u8]) -> Result<(Values<i64>, &[u8]), Failure>
    requires { count < 2 ^ 31 }
    ensures { Gives (λ x. (x.0, x.1.now)) result (numbers_at w64 count bytes.now) }
{
    let (cells, rest) = bytes_at(8 * count, bytes)?;
    Ok((longs_in(alloc, count, cells)?, rest))
}

#[tactic(auto, unfolding(crate::specs::Reading::int_array_at))]
pub fn int_array_at(alloc: Global, bytes: &[u8]) -> Result<(Tag, &[u8]), Failure>
    ensures { Gives (λ x. (x.0, x.1.now)) result (int_array_at bytes.now) }
{
    let (count, rest) = count_at(bytes)?;
    let (items, rest) = ints_at(alloc, count, rest)?;
    Ok((Tag::IntArray(items), rest))
}

#[tactic(auto, unfolding(crate::specs::Reading::long_array_at))]
pub fn long_array_at(alloc: Global, bytes: &[u8]) -> Result<(Tag, &[u8]), Failure>
    ensures { Gives (λ x. (x.0, x.1.now)) result (long_array_at bytes.now) }
{
    let (count, rest) = count_at(bytes)?;
    let (items, rest) = longs_at(alloc, count, rest)?;
    Ok((Tag::LongArray(items), rest))
}

pub fn byte_tag_at(bytes: &[u8]) -> Result<(Tag, &[u8]), Failure>
    ensures { Gives (λ x. (x.0, x.1.now)) result (signed_tag w8 Tag.Byte bytes.now) }
{
    let (number, rest) = i8_at(bytes)?;
    Ok((Tag::Byte(number), rest))
}

pub fn short_tag_at(bytes: &[u8]) -> Result<(Tag, &[u8]), Failure>
    ensures { Gives (λ x. (x.0, x.1.now)) result (signed_tag w16 Tag.Short bytes.now) }
{
    let (number, rest) = i16_at(bytes)?;
    Ok((Tag::Short(number), rest))
}

pub fn int_tag_at(bytes: &[u8]) -> Result<(Tag, &[u8]), Failure>
    ensures { Gives (λ x. (x.0, x.1.now)) result (signed_tag w32 Tag.Int bytes.now) }
{
    let (number, rest) = i32_at(bytes)?;
    Ok((Tag::Int(number), rest))
}

pub fn long_tag_at(bytes: &[u8]) -> Result<(Tag, &[u8]), Failure>
    ensures { Gives (λ x. (x.0, x.1.now)) result (signed_tag w64 Tag.Long bytes.now) }
{
    let (number, rest) = i64_at(bytes)?;
    Ok((Tag::Long(number), rest))
}

pub fn float_tag_at(bytes: &[u8]) -> Result<(Tag, &[u8]), Failure>
    ensures { Gives (λ x. (x.0, x.1.now)) result (bits_tag w32 Tag.Float bytes.now) }
{
    let (bits, rest) = u32_at(bytes)?;
    Ok((Tag::Float(bits), rest))
}

pub fn double_tag_at(bytes: &[u8]) -> Result<(Tag, &[u8]), Failure>
    ensures { Gives (λ x. (x.0, x.1.now)) result (bits_tag w64 Tag.Double bytes.now) }
{
    let (bits, rest) = u64_at(bytes)?;
    Ok((Tag::Double(bits), rest))
}
