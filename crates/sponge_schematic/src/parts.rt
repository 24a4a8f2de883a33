//! Reading the parts of a schematic from the named tags of its root.

ghost use Rattle.std.specs.Prelude.{◌≡◌, ◌∷◌, ◌<◌, ◌^◌, length, true, IfOk, All, List, option_copied};
ghost use Rattle.std.specs.Option.{ForSome};
ghost use Rattle.edit_terms.specs.Area.{volume};
ghost use Rattle.edit_terms.specs.Grid.{is_numbered};
ghost use Rattle.block_entities.specs.Gathering.{IsEntryList};
ghost use Rattle.sponge_schematic.specs.Answers.{Gives};
ghost use Rattle.sponge_schematic.specs.BlockData.{cells_of};
ghost use Rattle.sponge_schematic.specs.Palette.{palette_of};
ghost use Rattle.sponge_schematic.specs.Root.{IsFileRow, AreCells};
ghost use Rattle.sponge_schematic.specs.Schematic.{entry_list, parts_of, Parts};
ghost use Rattle.sponge_schematic.specs.Fields.{tag_named, field_name};
ghost use Rattle.sponge_schematic.specs.declared.fault.Field.TheVariants as fields;

use crate::block_data::cells_in;
use crate::fault::{Field, WorldFault};
use crate::fields::{bytes_of, field, required, row_of};
use crate::header::{area, data_version};
use crate::palette::{Entries, read_entries};
use crate::places::Places;
use block_entities::is_entry_list;
use edit_terms::{BlockState, WorldBox};
use nbt_tags::{Named, Tag};
use std::alloc::Global;

/// The parts of a schematic beside its block entities and the tags that the format leaves open.
#[derive(Debug, Drop)]
pub(crate) struct BlockGrid {
    pub(crate) data_version: i32,
    pub(crate) area: WorldBox,
    /// The states of the palette's entries.
    pub(crate) states: Vec<BlockState>,
    /// The palette's place for each cell.
    pub(crate) cells: Vec<u32>,
}

/// The palette.
#[tactic(auto, unfolding(crate::specs::Palette::palette_of))]
fn palette(alloc: Global, row: &[Named]) -> Result<Entries, WorldFault>
    requires { IsFileRow row.now }
    ensures gives { Gives (λ x. record { numbers = x.numbers.items; states = x.states.items }) result (palette_of row.now) }
    ensures short { IfOk result (λ x. length x.numbers.items < 2 ^ 32) }
    ensures paired { IfOk result (λ x. length x.states.items ≡ length x.numbers.items) }
{
    let tag = required(row, Field::Palette)?;
    let entries = row_of(Field::Palette, tag)?;
    read_entries(alloc, entries)
}

/// The palette's place for each cell.
#[tactic(auto, unfolding(crate::specs::BlockData::cells_of))]
fn cells(alloc: Global, places: &Places, volume: u32, row: &[Named]) -> Result<Vec<u32>, WorldFault>
    requires { IsFileRow row.now }
    ensures gives { Gives (λ x. x.items) result (cells_of places.now.numbers.items volume row.now) }
    ensures cells { IfOk result (λ x. AreCells places.now.numbers.items volume x.items) }
{
    let tag = required(row, Field::BlockData)?;
    let bytes = bytes_of(Field::BlockData, tag)?;
    cells_in(alloc, places, volume, bytes)
}

/// Looks whether the list BlockEntities, where it is there, is empty or of compounds.
fn check_entries(list: Option<&Tag>) -> Result<(), WorldFault>
    ensures { Gives (λ x. option_copied list.entry) result (entry_list (option_copied list.entry)) }
{
    let Some(list) = list else {
        return Ok(());
    };
    if !is_entry_list(list) {
        return Err(WorldFault::WrongType(Field::BlockEntities));
    }
    Ok(())
}

/// The blocks of a schematic, once all of its named tags have been looked at.
#[tactic(auto, unfolding(crate::specs::Schematic::parts_of))]
pub(crate) fn read_blocks(alloc: Global, row: &[Named]) -> Result<BlockGrid, WorldFault>
    requires { IsFileRow row.now }
    ensures gives { Gives (λ x. record {
      data_version = x.data_version;
      area = x.area;
      states = x.states.items;
      cells = x.cells.items;
      list = tag_named (field_name fields.BlockEntities) row.now;
    }) result (parts_of row.now) }
    ensures numbered { IfOk result (λ x. is_numbered x.area x.states.items x.cells.items ≡ true) }
    ensures list { IfOk result (λ x. ForSome (tag_named (field_name fields.BlockEntities) row.now) IsEntryList) }
{
    let data_version = data_version(row)?;
    let area = area(row)?;
    let Entries { numbers, states } = palette(alloc, row)?;
    let places = Places::of(alloc, numbers)?;
    let cells = cells(alloc, &places, area.volume(), row)?;
    check_entries(field(row, Field::BlockEntities))?;
    Ok(BlockGrid {
        data_version,
        area,
        states,
        cells,
    })
}
