//! The varints of block data.

ghost use Rattle.std.specs.Prelude.{◌≡◌, ◌-◌, ◌<◌, ◌≤◌, ◌^◌, length, IfOk, ◌++◌, OnOk};
ghost use Rattle.sponge_schematic.specs.Answers.{Gives};
ghost use Rattle.sponge_schematic.specs.Varint.{byte_in, varint, varint_at};

use crate::fault::WorldFault;
use memory::Memory;

/// The next byte of a cell's varint, and the bytes behind it.
fn byte_in(cell: u32, bytes: &[u8]) -> Result<(u8, &[u8]), WorldFault>
    ensures gives { Gives (λ x. (x.0, x.1.now)) result (byte_in cell bytes.now) }
    ensures shorter { IfOk result (λ x. length x.1.now ≤ length bytes.now) }
{
    match bytes {
        [] => Err(WorldFault::ShortData { cells: cell }),
        [byte, rest @ ..] => Ok((*byte, rest)),
    }
}

/// The number of the varint at the first of the bytes, which belongs to that cell, and the bytes behind
/// it. They are the last of `size` bytes.
#[tactic(auto, unfolding(crate::specs::Varint::varint_at))]
pub(crate) fn varint_at(cell: u32, size: usize, bytes: &[u8]) -> Result<(u32, &[u8]), WorldFault>
    requires { size < 2 ^ 32 }
    ensures gives { Gives (λ x. (x.0, x.1.now)) result (varint_at cell (size - length bytes.now) bytes.now) }
    ensures shorter { IfOk result (λ x. length x.1.now ≤ length bytes.now) }
{
    let (a, rest) = byte_in(cell, bytes)?;
    if a < 128 {
        return Ok((u32::from(a), rest));
    }
    let low = u32::from(a - 128);
    let (b, rest) = byte_in(cell, rest)?;
    if b < 128 {
        return Ok((low + 128 * u32::from(b), rest));
    }
    let second = u32::from(b - 128);
    let (c, rest) = byte_in(cell, rest)?;
    if c < 128 {
        return Ok((low + 128 * (second + 128 * u32::from(c)), rest));
    }
    let third = u32::from(c - 128);
    let (d, rest) = byte_in(cell, rest)?;
    if d < 128 {
        return Ok((
            low + 128 * (second + 128 * (third + 128 * u32::from(d))),
            rest,
        ));
    }
    let fourth = u32::from(d - 128);
    let (e, rest) = byte_in(cell, rest)?;
    if e > 7 {
        return Err(WorldFault::BadVarint {
            byte: size.saturating_sub(bytes.len()) as u32,
        });
    }
    Ok((
        low + 128 * (second + 128 * (third + 128 * (fourth + 128 * u32::from(e)))),
        rest,
    ))
}

/// The shortest varint of a number.
pub(crate) fn put_varint(out: &mut Vec<u8>, number: u32) -> Result<(), Memory>
    ensures { OnOk result (out.new.items ≡ out.old.items ++ varint number) }
{
    let mut left = number;
    while left >= 128 {
        out.push((left % 128 + 128) as u8)?;
        left /= 128;
    }
    out.push(left as u8)?;
    Ok(())
}
