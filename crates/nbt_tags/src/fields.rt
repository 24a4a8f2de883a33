//! The fields that all payloads are made of. A reader takes the bytes from its place to the end, and
//! gives what stands there and the bytes behind it.

ghost use Rattle.std.specs.Prelude.{◌≡◌, ◌<◌, ◌^◌, length, IfOk};
ghost use Rattle.std.specs.Int.{w8, w16, w32, w64};
ghost use Rattle.nbt_tags.specs.Reading.{Gives, bytes_at, number_at, signed_at, text_at, kind_at, element_at, known_element, count_at, natural_count};

use crate::flaw::{Cause, Failure, flaw_at};
use crate::kind::{Kind, kind_of};
use byteorder::{BigEndian, ByteOrder};

/// So many bytes.
#[tactic(auto, unfolding(crate::specs::Reading::bytes_at))]
pub fn bytes_at(count: usize, bytes: &[u8]) -> Result<(&[u8], &[u8]), Failure>
    ensures gives { Gives (λ x. (x.0.now, x.1.now)) result (bytes_at count bytes.now) }
    ensures sized { IfOk result (λ x. length x.0.now ≡ count) }
{
    if bytes.len() < count {
        return Err(flaw_at(Cause::Short, bytes));
    }
    Ok(bytes.split_at(count))
}

#[tactic(auto, unfolding(crate::specs::Reading::number_at))]
pub fn u16_at(bytes: &[u8]) -> Result<(u16, &[u8]), Failure>
    ensures { Gives (λ x. (x.0, x.1.now)) result (number_at w16 bytes.now) }
{
    let (cells, rest) = bytes_at(2, bytes)?;
    Ok((BigEndian::read_u16(cells), rest))
}

#[tactic(auto, unfolding(crate::specs::Reading::number_at))]
pub fn u32_at(bytes: &[u8]) -> Result<(u32, &[u8]), Failure>
    ensures { Gives (λ x. (x.0, x.1.now)) result (number_at w32 bytes.now) }
{
    let (cells, rest) = bytes_at(4, bytes)?;
    Ok((BigEndian::read_u32(cells), rest))
}

#[tactic(auto, unfolding(crate::specs::Reading::number_at))]
pub fn u64_at(bytes: &[u8]) -> Result<(u64, &[u8]), Failure>
    ensures { Gives (λ x. (x.0, x.1.now)) result (number_at w64 bytes.now) }
{
    let (cells, rest) = bytes_at(8, bytes)?;
    Ok((BigEndian::read_u64(cells), rest))
}

#[tactic(auto, unfolding(crate::specs::Reading::signed_at))]
pub fn i8_at(bytes: &[u8]) -> Result<(i8, &[u8]), Failure>
    ensures { Gives (λ x. (x.0, x.1.now)) result (signed_at w8 bytes.now) }
{
    let (cells, rest) = bytes_at(1, bytes)?;
    Ok((cells[0].cast_signed(), rest))
}

#[tactic(auto, unfolding(crate::specs::Reading::signed_at))]
pub fn i16_at(bytes: &[u8]) -> Result<(i16, &[u8]), Failure>
    ensures { Gives (λ x. (x.0, x.1.now)) result (signed_at w16 bytes.now) }
{
    let (cells, rest) = bytes_at(2, bytes)?;
    Ok((BigEndian::read_i16(cells), rest))
}

#[tactic(auto, unfolding(crate::specs::Reading::signed_at))]
pub fn i32_at(bytes: &[u8]) -> Result<(i32, &[u8]), Failure>
    ensures { Gives (λ x. (x.0, x.1.now)) result (signed_at w32 bytes.now) }
{
    let (cells, rest) = bytes_at(4, bytes)?;
    Ok((BigEndian::read_i32(cells), rest))
}

#[tactic(auto, unfolding(crate::specs::Reading::signed_at))]
pub fn i64_at(bytes: &[u8]) -> Result<(i64, &[u8]), Failure>
    ensures { Gives (λ x. (x.0, x.1.now)) result (signed_at w64 bytes.now) }
{
    let (cells, rest) = bytes_at(8, bytes)?;
    Ok((BigEndian::read_i64(cells), rest))
}

/// The bytes of a name or a string.
#[tactic(auto, unfolding(crate::specs::Reading::text_at))]
pub fn text_at(bytes: &[u8]) -> Result<(&[u8], &[u8]), Failure>
    ensures { Gives (λ x. (x.0.now, x.1.now)) result (text_at bytes.now) }
{
    let (size, rest) = u16_at(bytes)?;
    bytes_at(size as usize, rest)
}

/// The type byte of a tag.
#[tactic(auto, unfolding(crate::specs::Reading::kind_at))]
pub fn kind_at(bytes: &[u8]) -> Result<(Kind, &[u8]), Failure>
    ensures { Gives (λ x. (x.0, x.1.now)) result (kind_at bytes.now) }
{
    match bytes {
        [] => Err(flaw_at(Cause::Short, bytes)),
        [byte, rest @ ..] => match kind_of(*byte) {
            None => Err(flaw_at(Cause::BadType, bytes)),
            Some(kind) => Ok((kind, rest)),
        },
    }
}

/// The element type of a list.
#[tactic(auto, unfolding(crate::specs::Reading::element_at))]
pub fn element_at(bytes: &[u8]) -> Result<(u8, &[u8]), Failure>
    ensures { Gives (λ x. (x.0, x.1.now)) result (element_at bytes.now) }
{
    match bytes {
        [] => Err(flaw_at(Cause::Short, bytes)),
        [byte, rest @ ..] => known_element(bytes, *byte, rest),
    }
}

/// An element type that stands at the first of the bytes, and was read there.
fn known_element<'a>(
    bytes: &'a [u8],
    element: u8,
    rest: &'a [u8],
) -> Result<(u8, &'a [u8]), Failure>
    ensures { Gives (λ x. (x.0, x.1.now)) result
        (known_element bytes.now element rest.now) }
{
    if 12 < element {
        return Err(flaw_at(Cause::BadType, bytes));
    }
    Ok((element, rest))
}

/// A count that stands at the first of the bytes, and was read there.
fn natural_count<'a>(
    bytes: &'a [u8],
    count: i32,
    rest: &'a [u8],
) -> Result<(usize, &'a [u8]), Failure>
    ensures gives { Gives (λ x. (x.0, x.1.now)) result (natural_count bytes.now count rest.now) }
    ensures small { IfOk result (λ x. x.0 < 2 ^ 31) }
{
    if count < 0 {
        return Err(flaw_at(Cause::BadCount, bytes));
    }
    Ok((count as usize, rest))
}

/// The count of an array.
#[tactic(auto, unfolding(crate::specs::Reading::count_at))]
pub fn count_at(bytes: &[u8]) -> Result<(usize, &[u8]), Failure>
    ensures gives { Gives (λ x. (x.0, x.1.now)) result (count_at bytes.now) }
    ensures small { IfOk result (λ x. x.0 < 2 ^ 31) }
{
    let (count, rest) = i32_at(bytes)?;
    natural_count(bytes, count, rest)
}
