//! `beside WORDS / WORDS`: the file of the second one's world with what the first one says beside its own.
//!
//! The words are the tags of a compound `Schematic`. The Palette and the tags behind it are told.

ghost use Rattle.std.specs.Prelude.{◌<◌, ◌^◌, length, IfSome};
ghost use Rattle.edit_terms.specs.Grid.{world_of};
ghost use Rattle.block_entities.specs.FileEntities.{AreFileEntities};

use crate::again::tell_body;
use crate::schematics::framed;
use crate::tags::TOO_MANY;
use block_entities::entities_of_grids;
use case_lines::Answer;
use edit_terms::Grid;
use sponge_schematic::{Carried, World, read_world, write_world};
use std::alloc::Global;

pub fn answer(alloc: Global, input: &str, answer: &mut Answer) -> Option<()> {
    let (first, second) = input.split_once(" / ")?;
    let first = framed(alloc, first)?;
    let second = framed(alloc, second)?;
    let bytes = written(alloc, &first, &second)?;
    tell_body(alloc, answer, &bytes);
    Some(())
}

fn written(alloc: Global, first: &[u8], second: &[u8]) -> Option<Vec<u8>> {
    let first = read(alloc, first)?;
    let second = read(alloc, second)?;
    written_beside(alloc, &first.carried, &second.grid)
}

/// The world of a file that has few loose entries.
fn read(alloc: Global, bytes: &[u8]) -> Option<World>
    ensures good { IfSome result (λ w. AreFileEntities (world_of w.grid)) }
    ensures few { IfSome result (λ w. length w.carried.loose < 2 ^ 30) }
{
    if bytes.len() > TOO_MANY {
        return None;
    }
    read_world(alloc, bytes).ok()
}

/// The file of a world of few entities.
fn written_beside(alloc: Global, carried: &Carried, grid: &Grid) -> Option<Vec<u8>>
    requires good { AreFileEntities (world_of grid.now) }
    requires few { length carried.now.loose < 2 ^ 30 }
{
    grid.area().well_formed();
    let _numbered = grid.cells();
    entities_of_grids();
    if grid.entities().len() > TOO_MANY {
        return None;
    }
    write_world(alloc, carried, grid).ok()
}
