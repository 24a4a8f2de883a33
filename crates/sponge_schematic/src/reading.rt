//! Reading a world's file.

ghost use Rattle.std.specs.Prelude.{◌<◌, ◌≤◌, ◌^◌, length, IfOk};
ghost use Rattle.edit_terms.specs.Grid.{world_of};
ghost use Rattle.sponge_schematic.specs.Answers.{Gives};
ghost use Rattle.sponge_schematic.specs.Read.{loaded_of, IsWritable};
ghost use Rattle.sponge_schematic.specs.Schematic.{schematic_of};

use crate::fault::WorldFault;
use crate::loaded::World;
use crate::loading::loaded;
use crate::others::keep_rest;
use crate::parts::read_blocks;
use crate::root::root_row;
use std::alloc::Global;

/// Reads a world's file: the world and what the file says beside it, or the file's first fault.
#[tactic(auto, using(crate::proofs::LooseEntries::answer_few))]
pub fn read_world(alloc: Global, bytes: &[u8]) -> Result<World, WorldFault>
    requires { length bytes.now < 2 ^ 32 }
    // Exactly what the bytes give, or exactly their first fault; `Memory` alone is free.
    ensures read { Gives loaded_of result (schematic_of bytes.now) }
    // The world can be written again.
    ensures writable { IfOk result (λ w. IsWritable w.carried (world_of w.grid)) }
    // There are no more loose entries than bytes.
    ensures few { IfOk result (λ w. length w.carried.loose ≤ length bytes.now) }
{
    world_in(alloc, bytes)
}

/// What the bytes give.
#[tactic(auto, unfolding(crate::specs::Schematic::schematic_of))]
fn world_in(alloc: Global, bytes: &[u8]) -> Result<World, WorldFault>
    requires { length bytes.now < 2 ^ 32 }
    ensures read { Gives loaded_of result (schematic_of bytes.now) }
    ensures writable { IfOk result (λ w. IsWritable w.carried (world_of w.grid)) }
{
    let row = root_row(alloc, bytes)?;
    let blocks = read_blocks(alloc, row.as_slice())?;
    let kept = keep_rest(alloc, row)?;
    let room = bytes.len().saturating_sub(blocks.cells.len());
    Ok(loaded(alloc, blocks, kept, room)?)
}
