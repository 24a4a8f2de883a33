//! Making the list of block entities of a world.

ghost use Rattle.std.specs.Prelude.{◌≡◌, ◌+◌, ◌++◌, ◌-◌, ◌<◌, ◌≤◌, ◌^◌, true, length, map, All, IfOk, IfSome, OnOk, IfSome, unwrap_or, [], ◌∷◌, FitsSigned, ◌-ℤ◌};
ghost use Rattle.std.specs.Int.{w32};
ghost use Rattle.std.specs.Option.{ForSome};
ghost use Rattle.std.specs.Arc.{arc_value};
ghost use Rattle.edit_terms.specs.Area.{holds, index_of};
ghost use Rattle.edit_terms.specs.Clipboard.{relative_to};
ghost use Rattle.edit_terms.specs.Grid.{is_rising_from, world_of};
ghost use Rattle.nbt_tags.specs.Spelling.{max_depth};
ghost use Rattle.nbt_tags.specs.WellFormed.{IsSoundTag};
ghost use Rattle.block_entities.specs.FileEntities.{IsEntry, AreFileEntities, entity_count, tags_of, pos_tag, row_of_entity};
ghost use Rattle.block_entities.specs.Gathering.{placed};
ghost use Rattle.block_entities.specs.Spreading.{block_entities, entry_of, list_of};

use crate::{COMPOUND, Memory};
use edit_terms::{Entity, Grid, Pos, WorldBox};
use nbt_tags::{Items, Named, Tag, Values, read_row};
use std::alloc::Global;
use std::sync::Arc;

/// The list of a grid's entities and of the loose entries, where it is written.
///
/// `element` is the element type of the list that was read, at most 12, or None where none was. Each entity is
/// written with its block's position, counted from the least corner of the box, as an IntArray of three named `Pos`
/// at the place where Pos was.
pub fn spread(
    alloc: Global,
    grid: &Grid,
    loose: &[Tag],
    element: Option<u8>,
) -> Result<Option<Tag>, Memory>
    requires good { AreFileEntities (world_of grid.now) }
    requires loose { All IsEntry loose.now }
    requires known { ForSome element (λ byte. byte ≤ 12) }
    requires few { entity_count (world_of grid.now) + length loose.now < 2 ^ 31 }
    ensures exact { IfOk result (λ tag. tag ≡ block_entities (world_of grid.now) loose.now element) }
    ensures sound { IfOk result (λ tag. IfSome tag (IsSoundTag (max_depth - 1))) }
{
    grid.area().well_formed();
    let mut entries = Vec::new(alloc);
    put_entities(alloc, &mut entries, grid.area(), grid.entities())?;
    put_loose(alloc, &mut entries, loose)?;
    Ok(list_of(element, entries))
}

/// The entries of entities that stand in the box.
fn put_entities(
    alloc: Global,
    entries: &mut Vec<Tag>,
    area: &WorldBox,
    list: &[(Pos, Arc<Entity>)],
) -> Result<(), Memory>
    requires { is_rising_from area.now 0 (placed list.now) ≡ true }
    ensures { OnOk result (entries.new.items ≡ entries.old.items
        ++ map (λ e. entry_of area.now (index_of area.now e.0) e.1) (placed list.now)) }
{
    for placed in list {
        entries.push(entry_of(alloc, area, placed)?)?;
    }
    Ok(())
}

fn put_loose(alloc: Global, entries: &mut Vec<Tag>, loose: &[Tag]) -> Result<(), Memory>
    ensures { OnOk result (entries.new.items ≡ entries.old.items ++ loose.now) }
{
    for entry in loose {
        entries.push(entry.copy(alloc)?)?;
    }
    Ok(())
}

/// The list of these entries, where it is written.
fn list_of(element: Option<u8>, entries: Vec<Tag>) -> Option<Tag>
    ensures { result ≡ list_of element entries.items }
{
    if entries.is_empty() {
        let element = element?;
        return Some(Tag::List {
            element,
            items: Items::from_vec(entries),
        });
    }
    Some(Tag::List {
        element: COMPOUND,
        items: Items::from_vec(entries),
    })
}

/// The entry of an entity: the tags before Pos, Pos, and the tags after.
fn entry_of(alloc: Global, area: &WorldBox, placed: &(Pos, Arc<Entity>)) -> Result<Tag, Memory>
    requires { holds area.now placed.now.0 ≡ true }
    ensures { IfOk result (λ tag. tag
        ≡ entry_of area.now (index_of area.now placed.now.0) (arc_value placed.now.1)) }
{
    area.well_formed();
    let local = local_position(&area.least(), &placed.0);
    let mut row = tags_of(alloc, placed.1.before())?;
    row.push(pos_tag(alloc, &local)?)?;
    row.append(tags_of(alloc, placed.1.after())?)?;
    Ok(Tag::Compound(row))
}

/// A position, counted from another.
fn local_position(least: &Pos, p: &Pos) -> Pos
    requires x { FitsSigned w32 (p.now.x -ℤ least.now.x) }
    requires y { FitsSigned w32 (p.now.y -ℤ least.now.y) }
    requires z { FitsSigned w32 (p.now.z -ℤ least.now.z) }
    ensures { result ≡ relative_to least.now p.now }
{
    Pos {
        x: p.x - least.x,
        y: p.y - least.y,
        z: p.z - least.z,
    }
}

fn tags_of(alloc: Global, bytes: &[u8]) -> Result<Items<Named>, Memory>
    ensures { IfOk result (λ row. row ≡ tags_of bytes.now) }
{
    match read_row(alloc, bytes, 3)? {
        Some(row) => Ok(row),
        None => Ok(Items::new(alloc)),
    }
}

/// The named tag that says where a block stands.
fn pos_tag(alloc: Global, local: &Pos) -> Result<Named, Memory>
    ensures { IfOk result (λ named. named ≡ pos_tag local.now) }
{
    let name = Vec::from_slice(alloc, b"Pos")?;
    let numbers = Vec::from_slice(alloc, &[local.x, local.y, local.z])?;
    Ok(Named {
        name: Values::from_vec(name),
        tag: Tag::IntArray(Values::from_vec(numbers)),
    })
}
