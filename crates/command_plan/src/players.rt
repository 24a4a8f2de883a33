//! The players of a workload.

ghost use Rattle.std.specs.Prelude.{◌≡◌, ℕ, ◌*◌, ◌<◌, ◌≤◌, IfOk, length, map, sum_by};
ghost use Rattle.std.specs.List.{range_with_len};
ghost use Rattle.edit_terms.specs.Area.{Area};
ghost use Rattle.run_terms.specs.Access.{accesses_of};
ghost use Rattle.run_terms.specs.Limits.{IsWithinLimits};
ghost use Rattle.run_terms.specs.Workload.{workload_of};
ghost use Rattle.command_plan.specs.ResolvedScripts.{IsSound, jobs_at};
ghost use Rattle.command_plan.specs.Players.{AreResolvedScripts, IsResolvedScript};
ghost use Rattle.command_plan.specs.Plan.{planned_by};
ghost use Rattle.command_plan.specs.Rectangles.{chunk_grid_of, IsChunkGrid};

use crate::planned::{Planned, all_false, planned_script};
use crate::rectangle::ChunkGrid;
use crate::resolved_script::{ResolvedScript, resolved};
use crate::writes::accesses;
use edit_terms::Case;
use memory::Memory;
use std::alloc::Global;

/// No chunk is marked.
fn no_marks(alloc: Global, grid: &ChunkGrid) -> Result<Vec<bool>, Memory>
    requires { IsChunkGrid grid.now }
    ensures { IfOk result (λ marks. length marks.items ≡ grid.now.columns * grid.now.rows) }
{
    all_false(alloc, (grid.columns * grid.rows) as usize)
}

/// The commands of a player.
#[tactic(auto, using(run_terms::proofs::LimitLemmas::some_depth, run_terms::proofs::LimitLemmas::few_depth, run_terms::proofs::LimitLemmas::script_within, run_terms::proofs::LimitLemmas::lines_are))]
fn resolved_of(alloc: Global, case: &Case, player: u32) -> Result<ResolvedScript, Memory>
    requires limits { IsWithinLimits (workload_of case.now) }
    requires player { player < length case.now.scripts }
    ensures { IfOk result (IsResolvedScript (workload_of case.now) player) }
{
    let script = &case.scripts.as_slice()[player as usize];
    resolved(
        alloc,
        case.opening.area(),
        player,
        case.depth,
        script.lines.as_slice(),
    )
}

/// The commands of all players.
#[tactic(auto, using(run_terms::proofs::LimitLemmas::few_players))]
pub(crate) fn all_resolved(alloc: Global, case: &Case) -> Result<Vec<ResolvedScript>, Memory>
    requires { IsWithinLimits (workload_of case.now) }
    ensures { IfOk result (λ scripts. AreResolvedScripts (workload_of case.now) (length case.now.scripts) scripts.items) }
{
    let mut scripts = Vec::new(alloc);
    for player in 0..case.scripts.as_slice().len() as u32 {
        scripts.push(resolved_of(alloc, case, player)?)?;
    }
    Ok(scripts)
}

fn script_accesses(marks: &mut [bool], grid: &ChunkGrid, script: &ResolvedScript) -> u64
    requires grid { IsChunkGrid grid.now }
    requires sound { IsSound grid.now script.now.steps.items script.now.footprints.items }
    requires few { length script.now.steps.items ≤ 10000 }
    requires marks { length marks.old ≡ grid.now.columns * grid.now.rows }
    ensures value { result ≡ sum_by (jobs_at grid.now script.now.steps.items script.now.footprints.items) (range_with_len 0 (length script.now.steps.items)) }
    ensures small { result ≤ 85899345900000 }
{
    accesses(marks, grid, &script.steps, &script.footprints)
}

fn sum_of_accesses(
    case: &Case,
    marks: &mut [bool],
    grid: &ChunkGrid,
    scripts: &[ResolvedScript],
) -> u64
    requires limits { IsWithinLimits (workload_of case.now) }
    requires grid { grid.now ≡ chunk_grid_of (workload_of case.now).opening.area }
    requires whole { IsChunkGrid grid.now }
    requires scripts { AreResolvedScripts (workload_of case.now) (length case.now.scripts) scripts.now }
    requires marks { length marks.old ≡ grid.now.columns * grid.now.rows }
    ensures { result ≡ accesses_of (workload_of case.now) }
{
    let mut sum = 0;
    for script in scripts {
        sum += script_accesses(marks, grid, script);
    }
    sum
}

fn plan_scripts(
    alloc: Global,
    case: &Case,
    marks: &mut [bool],
    grid: &ChunkGrid,
    scripts: Vec<ResolvedScript>,
) -> Result<Vec<Vec<Planned>>, Memory>
    requires limits { IsWithinLimits (workload_of case.now) }
    requires grid { grid.now ≡ chunk_grid_of (workload_of case.now).opening.area }
    requires whole { IsChunkGrid grid.now }
    requires scripts { AreResolvedScripts (workload_of case.now) (length case.now.scripts) scripts.items }
    requires marks { length marks.old ≡ grid.now.columns * grid.now.rows }
    ensures { IfOk result (λ players. map (λ commands. commands.items) players.items ≡ map (planned_by (workload_of case.now)) (range_with_len 0 (length case.now.scripts))) }
{
    let mut players = Vec::with_capacity(alloc, scripts.len())?;
    for script in scripts {
        players.push(planned_script(alloc, marks, grid, script)?)?;
    }
    Ok(players)
}

/// How many accesses the commands of all players have.
pub(crate) fn all_accesses(
    alloc: Global,
    case: &Case,
    grid: &ChunkGrid,
    scripts: &[ResolvedScript],
) -> Result<u64, Memory>
    requires limits { IsWithinLimits (workload_of case.now) }
    requires grid { grid.now ≡ chunk_grid_of (workload_of case.now).opening.area }
    requires whole { IsChunkGrid grid.now }
    requires scripts { AreResolvedScripts (workload_of case.now) (length case.now.scripts) scripts.now }
    ensures { IfOk result (λ jobs. jobs ≡ accesses_of (workload_of case.now)) }
{
    let mut marks = no_marks(alloc, grid)?;
    Ok(sum_of_accesses(case, &mut marks, grid, scripts))
}

/// What is planned for all players.
pub(crate) fn all_planned(
    alloc: Global,
    case: &Case,
    grid: &ChunkGrid,
    scripts: Vec<ResolvedScript>,
) -> Result<Vec<Vec<Planned>>, Memory>
    requires limits { IsWithinLimits (workload_of case.now) }
    requires grid { grid.now ≡ chunk_grid_of (workload_of case.now).opening.area }
    requires whole { IsChunkGrid grid.now }
    requires scripts { AreResolvedScripts (workload_of case.now) (length case.now.scripts) scripts.items }
    ensures { IfOk result (λ players. map (λ commands. commands.items) players.items ≡ map (planned_by (workload_of case.now)) (range_with_len 0 (length case.now.scripts))) }
{
    let mut marks = no_marks(alloc, grid)?;
    Ok(plan_scripts(alloc, case, &mut marks, grid, scripts)?)
}
