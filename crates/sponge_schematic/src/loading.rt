//! Putting a world together from the parts that were read.

ghost use Rattle.std.specs.Prelude.{◌≡◌, ◌<◌, ◌+◌, ◌^◌, ℕ, true, IfOk, All, length, map, option_map};
ghost use Rattle.std.specs.Arc.{arc_value};
ghost use Rattle.std.specs.Option.{ForSome};
ghost use Rattle.edit_terms.specs.Area.{volume, position_of};
ghost use Rattle.edit_terms.specs.Grid.{is_numbered, is_rising_from, entity_of, world_of};
ghost use Rattle.block_entities.specs.Gathering.{IsEntryList, entity_at, loose_of, placed};
ghost use Rattle.block_entities.specs.FileEntities.{IsEntry, IsFileEntity};
ghost use Rattle.sponge_schematic.specs.Schematic.{entries_in, element_of, world_in};
ghost use Rattle.sponge_schematic.specs.Rows.{IsGathered};
ghost use Rattle.sponge_schematic.specs.Read.{IsWritable};

use crate::carried::{Carried, Rest};
use crate::loaded::World;
use crate::others::Kept;
use crate::parts::BlockGrid;
use block_entities::{Gathered, entities_of_grids, gather};
use edit_terms::{Entities, Grid, WorldBox};
use memory::Memory;
use nbt_tags::{Items, Tag};
use std::alloc::Global;

/// The element type of the list BlockEntities, where it is there.
fn element_of(list: &Option<Tag>) -> Option<u8>
    ensures { result ≡ option_map element_of list.now }
{
    match list {
        Some(Tag::List { element, items: _ }) => Some(*element),
        Some(_) => Some(0),
        None => None,
    }
}

/// The entities of the list BlockEntities and its loose entries; none where it isn't there.
fn gathered(alloc: Global, list: Option<Tag>, area: &WorldBox) -> Result<Gathered, Memory>
    requires { ForSome list IsEntryList }
    ensures { IfOk result (λ g. IsGathered area.now (entries_in list) (placed g.entities) g.loose) }
{
    match list {
        Some(list) => gather(alloc, list, area),
        None => Ok(Gathered {
            entities: Entities::from_vec(Vec::new(alloc)),
            loose: Items::new(alloc),
        }),
    }
}

/// The grid of these parts.
fn grid_of(alloc: Global, blocks: BlockGrid, entities: Entities) -> Grid
    requires numbered { is_numbered blocks.area blocks.states.items blocks.cells.items ≡ true }
    requires rising { is_rising_from blocks.area 0 (placed entities) ≡ true }
    ensures { result ≡ record {
      area = blocks.area;
      kinds = blocks.states.items;
      cells = blocks.cells.items;
      entities = placed entities;
    } }
{
    let BlockGrid {
        data_version: _,
        area,
        states,
        cells,
    } = blocks;
    let Some(grid) = Grid::from_parts(alloc, area, states, cells) else {
        unreachable!()
    };
    let Some(grid) = grid.with_entities(entities) else {
        unreachable!()
    };
    grid
}

/// The world of these parts, and what the file says beside it, which takes about `room` bytes.
pub(crate) fn loaded(
    alloc: Global,
    blocks: BlockGrid,
    kept: Kept,
    room: usize,
) -> Result<World, Memory>
    requires numbered { is_numbered blocks.area blocks.states.items blocks.cells.items ≡ true }
    requires list { ForSome kept.list IsEntryList }
    ensures carried { IfOk result (λ w. w.carried ≡ record {
      data_version = blocks.data_version;
      element = option_map element_of kept.list;
      loose = loose_of blocks.area (entries_in kept.list);
      others = kept.others.items;
    }) }
    ensures world { IfOk result (λ w. world_of w.grid
        ≡ world_in blocks.area blocks.states.items blocks.cells.items (entries_in kept.list)) }
    ensures writable { IfOk result (λ w. IsWritable w.carried (world_of w.grid)) }
{
    entities_of_grids();
    blocks.area.well_formed();
    let element = element_of(&kept.list);
    let Kept { list, others } = kept;
    let Gathered { entities, loose } = gathered(alloc, list, &blocks.area)?;
    let rest = Rest {
        element,
        loose,
        others: Items::from_vec(others),
        room,
    };
    let carried = Carried::new(blocks.data_version, rest);
    let grid = grid_of(alloc, blocks, entities);
    Ok(World { grid, carried })
}
