//! Planned commands.

ghost use Rattle.std.specs.Prelude.{◌≡◌, ℕ, ◌*◌, ◌<◌, ◌≤◌, ◌==◌, ◌||◌, false, Bool, All, IfOk, get_or, length, map};
ghost use Rattle.std.specs.List.{list_any, range_with_len};
ghost use Rattle.run_terms.specs.Fold.{edits_taken_by};
ghost use Rattle.command_plan.specs.ResolvedScripts.{AreInside, AreOfEarlier, IsSound, is_taken, keeps_at};
ghost use Rattle.command_plan.specs.PlannedScripts.{planned_at, planned_with};
ghost use Rattle.command_plan.specs.Rectangles.{IsChunkGrid};

use crate::footprint::Footprint;
use crate::listing::listed_chunks;
use crate::rectangle::ChunkGrid;
use crate::resolved_script::{ResolvedScript, edits_of};
use crate::writes::written_chunks;
use edit_terms::{Items, Step};
use memory::Memory;
use std::alloc::Global;

/// A command with the chunks that it accesses, by rising index, and whether a later undo or redo takes it, so
/// that its changes must be kept.
#[derive(Drop)]
pub struct Planned {
    /// What the command is.
    pub step: Step,
    /// The chunks that it reads.
    pub reads: Items<u32>,
    /// The chunks that it writes, with those of the edits that it takes.
    pub writes: Items<u32>,
    /// A later command of the player takes it.
    pub keeps: bool,
}

/// Notes the edits that a command takes.
fn keep_edits(keeps: &mut [bool], edits: &[u32])
    requires { All (λ n. n < length keeps.old) edits.now }
    ensures { (k : ℕ) → get_or keeps.new k false ≡ (get_or keeps.old k false || list_any (λ edit. edit == k) edits.now) }
{
    for edit in edits {
        keeps[*edit as usize] = true;
    }
}

/// Notes all edits that these commands take.
fn keep_all(keeps: &mut [bool], steps: &[Step])
    requires many { length keeps.old ≡ length steps.now }
    requires earlier { AreOfEarlier steps.now }
    ensures { (k : ℕ) → get_or keeps.new k false ≡ (get_or keeps.old k false || is_taken steps.now k) }
{
    for step in steps {
        keep_edits(keeps, edits_of(step));
    }
}

/// So many times no.
pub(crate) fn all_false(alloc: Global, count: usize) -> Result<Vec<bool>, Memory>
    ensures many { IfOk result (λ tests. length tests.items ≡ count) }
    ensures each { IfOk result (λ tests. (k : ℕ) → get_or tests.items k false ≡ false) }
{
    Ok(vec![in alloc; false; count]?)
}

/// For each command whether a command takes it.
fn kept(alloc: Global, steps: &[Step]) -> Result<Vec<bool>, Memory>
    requires { AreOfEarlier steps.now }
    ensures many { IfOk result (λ keeps. length keeps.items ≡ length steps.now) }
    ensures each { IfOk result (λ keeps. (n : ℕ) → n < length steps.now → get_or keeps.items n false ≡ keeps_at steps.now n) }
{
    let mut keeps = all_false(alloc, steps.len())?;
    keep_all(&mut keeps, steps);
    Ok(keeps)
}

/// What is planned for a command of this place.
fn plan_command(
    alloc: Global,
    marks: &mut [bool],
    grid: &ChunkGrid,
    footprints: &[Footprint],
    number: u32,
    step: Step,
    keeps: bool,
) -> Result<Planned, Memory>
    requires grid { IsChunkGrid grid.now }
    requires inside { AreInside grid.now footprints.now }
    requires number { number < length footprints.now }
    requires taken { All (λ n. n < length footprints.now) (edits_taken_by step) }
    requires marks { length marks.old ≡ grid.now.columns * grid.now.rows }
    ensures { IfOk result (λ planned. planned ≡ planned_with grid.now footprints.now number step keeps) }
{
    let reads = listed_chunks(alloc, grid, &footprints[number as usize].reads)?;
    let writes = written_chunks(alloc, marks, grid, footprints, number, edits_of(&step))?;
    Ok(Planned {
        step,
        reads: Items::from_vec(reads),
        writes: Items::from_vec(writes),
        keeps,
    })
}

/// What is planned for a player.
pub(crate) fn planned_script(
    alloc: Global,
    marks: &mut [bool],
    grid: &ChunkGrid,
    script: ResolvedScript,
) -> Result<Vec<Planned>, Memory>
    requires grid { IsChunkGrid grid.now }
    requires sound { IsSound grid.now script.steps.items script.footprints.items }
    requires few { length script.steps.items ≤ 10000 }
    requires marks { length marks.old ≡ grid.now.columns * grid.now.rows }
    ensures { IfOk result (λ commands. commands.items ≡ map (planned_at grid.now script.steps.items script.footprints.items) (range_with_len 0 (length script.steps.items))) }
{
    let ResolvedScript { steps, footprints } = script;
    let keeps = kept(alloc, &steps)?;
    Ok(planned_steps(alloc, marks, grid, &footprints, &keeps, steps)?)
}

fn planned_steps(
    alloc: Global,
    marks: &mut [bool],
    grid: &ChunkGrid,
    footprints: &[Footprint],
    keeps: &[bool],
    steps: Vec<Step>,
) -> Result<Vec<Planned>, Memory>
    requires grid { IsChunkGrid grid.now }
    requires sound { IsSound grid.now steps.items footprints.now }
    requires few { length steps.items ≤ 10000 }
    requires keeps { length keeps.now ≡ length steps.items }
    requires each { (n : ℕ) → n < length steps.items → get_or keeps.now n false ≡ keeps_at steps.items n }
    requires marks { length marks.old ≡ grid.now.columns * grid.now.rows }
    ensures { IfOk result (λ commands. commands.items ≡ map (planned_at grid.now steps.items footprints.now) (range_with_len 0 (length steps.items))) }
{
    let mut commands = Vec::with_capacity(alloc, steps.len())?;
    let mut number = 0;
    for step in steps {
        let keep = keeps[number as usize];
        commands.push(plan_command(alloc, marks, grid, footprints, number, step, keep)?)?;
        number += 1;
    }
    Ok(commands)
}
