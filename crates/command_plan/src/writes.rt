//! The chunks that a command writes, with those of the edits that it takes.

ghost use Rattle.std.specs.Prelude.{◌≡◌, ◌*◌, ◌+◌, ◌<◌, ◌≤◌, ◌∷◌, All, IfOk, length, sum_by};
ghost use Rattle.std.specs.List.{range_with_len};
ghost use Rattle.run_terms.specs.Fold.{edits_taken_by};
ghost use Rattle.command_plan.specs.ResolvedScripts.{AreInside, IsSound, is_written, jobs_at};
ghost use Rattle.command_plan.specs.Rectangles.{IsChunkGrid, chunks_with};

use crate::footprint::Footprint;
use crate::listing::{chunk_count, listed_chunks};
use crate::marks::{mark_command, marked_chunks, marked_count};
use crate::rectangle::ChunkGrid;
use crate::resolved_script::edits_of;
use edit_terms::Step;
use memory::Memory;
use std::alloc::Global;

/// How many chunks a command writes. The marks are of no use behind the call.
#[tactic(auto, using(crate::proofs::WriteLemmas::alone, crate::proofs::WriteLemmas::marked_is))]
fn written_size(
    marks: &mut [bool],
    grid: &ChunkGrid,
    footprints: &[Footprint],
    number: u32,
    taken: &[u32],
) -> u32
    requires grid { IsChunkGrid grid.now }
    requires inside { AreInside grid.now footprints.now }
    requires number { number < length footprints.now }
    requires taken { All (λ n. n < length footprints.now) taken.now }
    requires marks { length marks.old ≡ grid.now.columns * grid.now.rows }
    ensures { result ≡ length (chunks_with grid.now (is_written grid.now.columns footprints.now (number ∷ taken.now))) }
{
    if taken.is_empty() {
        return chunk_count(grid, &footprints[number as usize].writes);
    }
    mark_command(marks, grid, footprints, number, taken);
    marked_count(marks)
}

/// The chunks that a command writes, by rising index. The marks are of no use behind the call.
#[tactic(auto, using(crate::proofs::WriteLemmas::alone, crate::proofs::WriteLemmas::marked_is))]
pub(crate) fn written_chunks(
    alloc: Global,
    marks: &mut [bool],
    grid: &ChunkGrid,
    footprints: &[Footprint],
    number: u32,
    taken: &[u32],
) -> Result<Vec<u32>, Memory>
    requires grid { IsChunkGrid grid.now }
    requires inside { AreInside grid.now footprints.now }
    requires number { number < length footprints.now }
    requires taken { All (λ n. n < length footprints.now) taken.now }
    requires marks { length marks.old ≡ grid.now.columns * grid.now.rows }
    ensures { IfOk result (λ chunks. chunks.items ≡ chunks_with grid.now (is_written grid.now.columns footprints.now (number ∷ taken.now))) }
{
    if taken.is_empty() {
        return listed_chunks(alloc, grid, &footprints[number as usize].writes);
    }
    mark_command(marks, grid, footprints, number, taken);
    marked_chunks(alloc, marks)
}

/// How many accesses a command has.
#[tactic(auto, using(crate::proofs::WriteLemmas::writes_read))]
fn command_accesses(
    marks: &mut [bool],
    grid: &ChunkGrid,
    steps: &[Step],
    footprints: &[Footprint],
    number: u32,
) -> u64
    requires grid { IsChunkGrid grid.now }
    requires sound { IsSound grid.now steps.now footprints.now }
    requires number { number < length steps.now }
    requires marks { length marks.old ≡ grid.now.columns * grid.now.rows }
    ensures value { result ≡ jobs_at grid.now steps.now footprints.now number }
    ensures small { result ≤ 8589934590 }
{
    let reads = chunk_count(grid, &footprints[number as usize].reads);
    let taken = edits_of(&steps[number as usize]);
    let writes = written_size(marks, grid, footprints, number, taken);
    u64::from(reads) + u64::from(writes)
}

/// How many accesses a player's commands have.
pub(crate) fn accesses(
    marks: &mut [bool],
    grid: &ChunkGrid,
    steps: &[Step],
    footprints: &[Footprint],
) -> u64
    requires grid { IsChunkGrid grid.now }
    requires sound { IsSound grid.now steps.now footprints.now }
    requires few { length steps.now ≤ 10000 }
    requires marks { length marks.old ≡ grid.now.columns * grid.now.rows }
    ensures value { result ≡ sum_by (jobs_at grid.now steps.now footprints.now) (range_with_len 0 (length steps.now)) }
    ensures small { result ≤ 85899345900000 }
{
    let mut sum = 0;
    for number in 0..steps.len() as u32 {
        sum += command_accesses(marks, grid, steps, footprints, number);
    }
    sum
}
