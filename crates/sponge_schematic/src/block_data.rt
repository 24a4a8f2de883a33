//! Reading a schematic's block data.

ghost use Rattle.std.specs.Prelude.{◌≡◌, ◌≤◌, ◌<◌, ◌^◌, length, IfOk};
ghost use Rattle.sponge_schematic.specs.Answers.{Gives};
ghost use Rattle.sponge_schematic.specs.BlockData.{cell_at, all_read, cells_in};

use crate::fault::WorldFault;
use crate::places::Places;
use crate::varint::varint_at;
use std::alloc::Global;

/// The palette's place for a cell, whose varint is the first of these bytes, and the bytes behind it. They
/// are the last of `size` bytes.
#[tactic(auto, unfolding(crate::specs::BlockData::cell_at))]
fn cell_at<'a>(
    places: &Places,
    size: usize,
    cell: u32,
    bytes: &'a [u8],
) -> Result<(u32, &'a [u8]), WorldFault>
    requires { size < 2 ^ 32 }
    ensures gives { Gives (λ x. (x.0, x.1.now)) result (cell_at places.now.numbers.items size cell bytes.now) }
    ensures shorter { IfOk result (λ x. length x.1.now ≤ length bytes.now) }
{
    let (number, rest) = varint_at(cell, size, bytes)?;
    match places.place(number) {
        None => Err(WorldFault::BadIndex {
            cell,
            value: number,
        }),
        Some(place) => Ok((place, rest)),
    }
}

/// The cells, if no byte is left behind them.
fn all_read(cells: Vec<u32>, rest: &[u8]) -> Result<Vec<u32>, WorldFault>
    requires { length rest.now < 2 ^ 32 }
    ensures { Gives (λ x. x.items) result (all_read (cells.items, rest.now)) }
{
    match rest {
        [] => Ok(cells),
        _ => Err(WorldFault::LongData {
            bytes: rest.len() as u32,
        }),
    }
}

/// The palette's place for each of so many cells, of which these bytes are the block data.
pub(crate) fn cells_in(
    alloc: Global,
    places: &Places,
    volume: u32,
    bytes: &[u8],
) -> Result<Vec<u32>, WorldFault>
    requires { length bytes.now < 2 ^ 32 }
    ensures { Gives (λ x. x.items) result (cells_in places.now.numbers.items volume bytes.now) }
{
    let mut cells = Vec::with_capacity(alloc, bytes.len().min(volume as usize))?;
    let mut rest = bytes;
    for cell in 0..volume {
        let (place, after) = cell_at(places, bytes.len(), cell, rest)?;
        cells.push(place)?;
        rest = after;
    }
    all_read(cells, rest)
}
