//! The workload of the drill.

ghost use Rattle.std.specs.Prelude.{◌≡◌, IfOk, map};
ghost use Rattle.std.specs.List.{range_with_len};
ghost use Rattle.run_terms.specs.Workload.{workload_of};
ghost use Rattle.run_terms.specs.Limits.{IsWithinLimits};
ghost use Rattle.world_gen.specs.Drill.{drill_script, drill_workload};

use crate::ground::drill_grid;
use crate::scripts::drill_script;
use edit_terms::{Case, Items, Script};
use memory::Memory;
use std::alloc::Global;

/// The drill of a number: a meadow of 256 by 32 by 64 blocks, and eight players of 150 commands each.
pub fn drill_case(alloc: Global, number: u64) -> Result<Case, Memory>
    ensures case { IfOk result (λ case. workload_of case ≡ drill_workload number) }
    ensures within { IfOk result (λ case. IsWithinLimits (workload_of case)) }
{
    Ok(Case {
        opening: drill_grid(alloc)?,
        scripts: Items::from_vec(scripts(alloc, number)?),
        seed: number,
        depth: 15,
    })
}

/// The scripts of the eight players.
fn scripts(alloc: Global, number: u64) -> Result<Vec<Script>, Memory>
    ensures { IfOk result (λ scripts. scripts.items ≡ map (drill_script number) (range_with_len 0 8)) }
{
    let mut scripts = Vec::with_capacity(alloc, 8)?;
    for player in 0..8 {
        scripts.push(drill_script(alloc, number, player)?)?;
    }
    Ok(scripts)
}
