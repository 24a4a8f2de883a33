//! Writing a world's file.

ghost use Rattle.std.specs.Prelude.{◌≡◌, ◌++◌, ◌∷◌, [], IfOk, OnOk, codes};
ghost use Rattle.edit_terms.specs.Grid.{world_of};
ghost use Rattle.block_entities.specs.Spreading.{block_entities};
ghost use Rattle.sponge_schematic.specs.File.{own_tags, block_tags, states_once, block_data, entity_tags, schematic_bytes};
ghost use Rattle.sponge_schematic.specs.Read.{IsWritable};

use crate::carried::Carried;
use crate::file_tags::{block_tags, box_tags, entity_tags};
use crate::numbering::number_blocks;
use block_entities::spread;
use edit_terms::Grid;
use memory::Memory;
use nbt_tags::{Named, Tag, append_row};
use std::alloc::Global;

/// The tags of a file that the writer writes itself.
#[tactic(auto, unfolding(crate::specs::File::own_tags))]
fn own_tags(alloc: Global, carried: &Carried, last: &Grid) -> Result<Vec<Named>, Memory>
    requires { IsWritable carried.now (world_of last.now) }
    ensures { IfOk result (λ tags. tags.items ≡ own_tags carried.now (world_of last.now)) }
{
    let mut tags = box_tags(alloc, carried.data_version(), last.area())?;
    tags.append(&mut grid_tags(alloc, last)?)?;
    tags.append(&mut spread_tags(alloc, carried, last)?)?;
    Ok(tags)
}

/// The tags of a world's blocks.
fn grid_tags(alloc: Global, last: &Grid) -> Result<Vec<Named>, Memory>
    ensures { IfOk result (λ tags. tags.items ≡ block_tags (states_once (world_of last.now)) (block_data (world_of last.now))) }
{
    let (palette, data) = number_blocks(alloc, last)?;
    block_tags(alloc, &palette, data)
}

/// The tag of a world's block entities and of the loose ones, where it is written.
fn spread_tags(alloc: Global, carried: &Carried, last: &Grid) -> Result<Vec<Named>, Memory>
    requires { IsWritable carried.now (world_of last.now) }
    ensures { IfOk result (λ tags. tags.items ≡ entity_tags (block_entities (world_of last.now) carried.now.loose carried.now.element)) }
{
    carried.well_formed();
    let list = spread(alloc, last, carried.loose(), carried.element())?;
    entity_tags(alloc, list)
}

/// How many bytes the names of a palette's entries have, and their numbers.
fn palette_room(entries: &[Named]) -> usize {
    let mut room = 0usize;
    for entry in entries {
        room = room.saturating_add(entry.name.as_slice().len() + 7);
    }
    room
}

/// How much room these tags take, but for what the reader kept.
fn room_of(tags: &[Named]) -> usize {
    let mut room = 64usize;
    for entry in tags {
        let own = match &entry.tag {
            Tag::ByteArray(bytes) => bytes.as_slice().len(),
            Tag::Compound(entries) => palette_room(entries.as_slice()),
            _ => 32,
        };
        room = room.saturating_add(own);
    }
    room
}

/// The file of a world with these tags. The world's entities can stand in a file, as those of a world that
/// was read can, and with the loose entries they are fewer than 2^31.
#[tactic(auto, using(crate::proofs::FileBytes::file_written))]
pub fn write_world(alloc: Global, carried: &Carried, last: &Grid) -> Result<Vec<u8>, Memory>
    requires { IsWritable carried.now (world_of last.now) }
    ensures { IfOk result (λ bytes. bytes.items ≡ schematic_bytes carried.now (world_of last.now)) }
{
    let tags = own_tags(alloc, carried, last)?;
    let room = room_of(&tags).saturating_add(carried.room());
    let mut out = Vec::with_capacity(alloc, room)?;
    out.extend_from_slice(b"\x0A\0\x09Schematic")?;
    append_row(&mut out, &tags)?;
    append_row(&mut out, carried.others())?;
    out.push(0)?;
    Ok(out)
}
