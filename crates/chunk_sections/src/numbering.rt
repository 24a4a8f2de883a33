//! Numbering the blocks of a section by the first appearance of their states.
ghost use Rattle.std.specs.Prelude.{◌≡◌, ◌<◌, ◌≤◌, ◌-◌, ◌^◌, All, length, get_or, replicate, set, Some, None, IfOk, OnOk};
ghost use Rattle.edit_terms.specs.Same.{same_state};
ghost use Rattle.block_palette.specs.Numbering.{number_in, with_entry};
ghost use Rattle.chunk_sections.specs.Section.{kind_of, states_of, section_kinds, section_numbers};
ghost use Rattle.chunk_sections.specs.Table.{IsTable};

use block_palette::Palette;
use edit_terms::BlockState;
use memory::Memory;
use std::alloc::Global;

/// The distinct states of blocks that are given by their kinds, and the number of each block's state
/// among these.
pub(crate) fn numbered(
    alloc: Global,
    kinds: &[BlockState],
    cells: &[u32],
) -> Result<(Palette<BlockState>, Vec<u32>), Memory>
    requires within { All (λ kind. kind < length kinds.now) cells.now }
    requires few { length cells.now ≤ 4096 }
    ensures palette { IfOk result (λ r. r.0 ≡ section_kinds (states_of kinds.now cells.now)) }
    ensures numbers { IfOk result (λ r. r.1.items ≡ section_numbers (states_of kinds.now cells.now)) }
{
    let mut palette = Palette::new(alloc);
    let mut table = empty_table(alloc, table_size(kinds.len(), cells.len()))?;
    let mut numbers = Vec::with_capacity(alloc, cells.len())?;
    for kind in cells {
        let number = number_of(alloc, &mut palette, &mut table, kinds, *kind as usize)?;
        numbers.push(number)?;
    }
    Ok((palette, numbers))
}

/// A table of all kinds pays only where they are few beside the blocks.
fn table_size(kinds: usize, cells: usize) -> usize
    requires { cells ≤ 4096 }
{
    if kinds <= 16 * cells { kinds } else { 0 }
}

fn empty_table(alloc: Global, size: usize) -> Result<Vec<Option<u32>>, Memory>
    ensures { IfOk result (λ table. table.items ≡ replicate size None) }
{
    let mut table = Vec::with_capacity(alloc, size)?;
    table.resize(size, None)?;
    Ok(table)
}

/// The number of a kind's state in the palette, into which it goes where it is new.
fn number_of(
    alloc: Global,
    palette: &mut Palette<BlockState>,
    table: &mut Vec<Option<u32>>,
    kinds: &[BlockState],
    kind: usize,
) -> Result<u32, Memory>
    requires known { IsTable kinds.now palette.old table.old.items }
    requires within { kind < length kinds.now }
    requires few { length palette.old < 2 ^ 32 - 1 }
    ensures number { IfOk result (λ n. n ≡ number_in same_state palette.old (kind_of kinds.now kind)) }
    ensures entries { OnOk result (palette.new ≡ with_entry same_state palette.old (kind_of kinds.now kind)) }
    ensures known { OnOk result (IsTable kinds.now palette.new table.new.items) }
{
    if let Some(number) = known(table, kind) {
        return Ok(number);
    }
    let number = palette.number(kinds[kind].copy(alloc)?)?;
    note(table, kind, number);
    Ok(number)
}

#[inline(always)]
fn known(table: &Vec<Option<u32>>, kind: usize) -> Option<u32>
    ensures { result ≡ get_or table.now.items kind None }
{
    if kind < table.len() {
        table[kind]
    } else {
        None
    }
}

fn note(table: &mut Vec<Option<u32>>, kind: usize, number: u32)
    ensures { table.new.items ≡ set table.old.items kind (Some number) }
{
    if kind < table.len() {
        table[kind] = Some(number);
    }
}
