//! Numbering a world's blocks by the first appearance of their states.
ghost use Rattle.std.specs.Prelude.{◌≡◌, ◌++◌, [], ◌<◌, ◌-◌, ◌^◌, length, replicate, None, IfOk, OnOk};
ghost use Rattle.edit_terms.specs.Grid.{world_of};
ghost use Rattle.edit_terms.specs.Same.{same_state};
ghost use Rattle.block_palette.specs.Numbering.{number_in, with_entry};
ghost use Rattle.sponge_schematic.specs.File.{states_once, block_data};
ghost use Rattle.sponge_schematic.specs.Numbers.{IsTable, kind_of};

use crate::varint::put_varint;
use block_palette::Palette;
use edit_terms::{BlockState, Grid};
use memory::Memory;
use std::alloc::Global;

/// The palette of a world's blocks, and the varints of their numbers in it.
pub(crate) fn number_blocks(
    alloc: Global,
    grid: &Grid,
) -> Result<(Palette<BlockState>, Vec<u8>), Memory>
    ensures palette { IfOk result (λ r. r.0 ≡ states_once (world_of grid.now)) }
    ensures data { IfOk result (λ r. r.1.items ≡ block_data (world_of grid.now)) }
    ensures few { IfOk result (λ r. length r.0 < 2 ^ 31) }
{
    let kinds = grid.kinds();
    let mut palette = Palette::new(alloc);
    let mut table = empty_table(alloc, kinds.len())?;
    let mut data = Vec::with_capacity(alloc, grid.area().volume() as usize)?;
    for kind in grid.cells() {
        let number = number_of(alloc, &mut palette, &mut table, kinds, *kind as usize)?;
        put_varint(&mut data, number)?;
    }
    Ok((palette, data))
}

fn empty_table(alloc: Global, kinds: usize) -> Result<Vec<Option<u32>>, Memory>
    ensures { IfOk result (λ table. table.items ≡ replicate kinds None) }
{
    let mut table = Vec::with_capacity(alloc, kinds)?;
    table.resize(kinds, None)?;
    Ok(table)
}

/// The number of a kind's state in the palette, into which it goes where it is new.
fn number_of(
    alloc: Global,
    palette: &mut Palette<BlockState>,
    table: &mut Vec<Option<u32>>,
    kinds: &[BlockState],
    kind: usize,
) -> Result<u32, Memory>
    requires known { IsTable kinds.now palette.old table.old.items }
    requires within { kind < length kinds.now }
    requires few { length palette.old < 2 ^ 32 - 1 }
    ensures number { IfOk result (λ n. n ≡ number_in same_state palette.old (kind_of kinds.now kind)) }
    ensures entries { OnOk result (palette.new ≡ with_entry same_state palette.old (kind_of kinds.now kind)) }
    ensures known { OnOk result (IsTable kinds.now palette.new table.new.items) }
{
    if let Some(number) = table[kind] {
        return Ok(number);
    }
    let number = palette.number(kinds[kind].copy(alloc)?)?;
    table[kind] = Some(number);
    Ok(number)
}
