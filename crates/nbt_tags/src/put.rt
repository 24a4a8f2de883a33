//! The fields as bytes, at the end of what is written.

ghost use Rattle.std.specs.Prelude.{◌≡◌, ◌++◌, length, OnOk};
ghost use Rattle.std.specs.Int.{w8, w16, cast_unsigned};
ghost use Rattle.byteorder.specs.Endian.{big_bytes};
ghost use Rattle.nbt_tags.specs.Written.{count_bytes, array_bytes, int_bytes, long_bytes, text_bytes};

use std::alloc::AllocError;

pub fn put_i8(out: &mut Vec<u8>, number: &i8) -> Result<(), AllocError>
    ensures { OnOk result
        (out.new.items ≡ out.old.items ++ big_bytes 1 (cast_unsigned w8 number.now)) }
{
    out.extend_from_slice(&number.to_be_bytes())
}

pub fn put_i16(out: &mut Vec<u8>, number: &i16) -> Result<(), AllocError>
    ensures { OnOk result
        (out.new.items ≡ out.old.items ++ big_bytes 2 (cast_unsigned w16 number.now)) }
{
    out.extend_from_slice(&number.to_be_bytes())
}

pub fn put_i32(out: &mut Vec<u8>, number: &i32) -> Result<(), AllocError>
    ensures { OnOk result (out.new.items ≡ out.old.items ++ int_bytes number.now) }
{
    out.extend_from_slice(&number.to_be_bytes())
}

pub fn put_i64(out: &mut Vec<u8>, number: &i64) -> Result<(), AllocError>
    ensures { OnOk result (out.new.items ≡ out.old.items ++ long_bytes number.now) }
{
    out.extend_from_slice(&number.to_be_bytes())
}

pub fn put_u32(out: &mut Vec<u8>, bits: u32) -> Result<(), AllocError>
    ensures { OnOk result (out.new.items ≡ out.old.items ++ big_bytes 4 bits) }
{
    out.extend_from_slice(&bits.to_be_bytes())
}

pub fn put_u64(out: &mut Vec<u8>, bits: u64) -> Result<(), AllocError>
    ensures { OnOk result (out.new.items ≡ out.old.items ++ big_bytes 8 bits) }
{
    out.extend_from_slice(&bits.to_be_bytes())
}

/// A count, as the lowest four bytes of it.
pub fn put_count(out: &mut Vec<u8>, count: usize) -> Result<(), AllocError>
    ensures { OnOk result (out.new.items ≡ out.old.items ++ count_bytes count) }
{
    let cells = count.to_be_bytes();
    out.extend_from_slice(&cells[4..])
}

/// A name or a string, its length as the lowest two bytes of it.
pub fn put_text(out: &mut Vec<u8>, text: &[u8]) -> Result<(), AllocError>
    ensures { OnOk result (out.new.items ≡ out.old.items ++ text_bytes text.now) }
{
    let cells = text.len().to_be_bytes();
    out.extend_from_slice(&cells[6..])?;
    out.extend_from_slice(text)
}

/// A byte array.
pub fn put_bytes(out: &mut Vec<u8>, bytes: &[u8]) -> Result<(), AllocError>
    ensures { OnOk result
        (out.new.items ≡ out.old.items ++ (count_bytes (length bytes.now) ++ bytes.now)) }
{
    put_count(out, bytes.len())?;
    out.extend_from_slice(bytes)
}

/// An array of numbers of four bytes.
pub fn put_ints(out: &mut Vec<u8>, numbers: &[i32]) -> Result<(), AllocError>
    ensures { OnOk result (out.new.items ≡ out.old.items ++ array_bytes int_bytes numbers.now) }
{
    put_count(out, numbers.len())?;
    for number in numbers {
        put_i32(out, number)?;
    }
    Ok(())
}

/// An array of numbers of eight bytes.
pub fn put_longs(out: &mut Vec<u8>, numbers: &[i64]) -> Result<(), AllocError>
    ensures { OnOk result (out.new.items ≡ out.old.items ++ array_bytes long_bytes numbers.now) }
{
    put_count(out, numbers.len())?;
    for number in numbers {
        put_i64(out, number)?;
    }
    Ok(())
}
