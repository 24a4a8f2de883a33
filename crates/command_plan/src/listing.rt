//! The chunks of a set, counted and listed.

ghost use Rattle.std.specs.Prelude.{◌≡◌, ℕ, ◌+◌, ◌-◌, ◌*◌, ◌<◌, ◌≤◌, ◌++◌, ◌∷◌, [], if◌then◌else◌, IfOk, OnOk, length, filter};
ghost use Rattle.std.specs.List.{range_with_len};
ghost use Rattle.command_plan.specs.Rectangles.{IsChunkGrid, IsInside, IsSetInside, IsRunWithin, covers, is_in_set, chunks_with, chunks_over};

use crate::rectangle::{ChunkGrid, ChunkSet, Rectangle, Run, common, has_chunk, hull};
use memory::Memory;
use std::alloc::Global;

/// How many columns a run has.
fn run_size(run: &Run) -> u32
    requires { IsRunWithin run.now 4097 }
    ensures value { result ≡ run.now.to - run.now.from }
    ensures small { result ≤ 4097 }
{
    run.to - run.from
}

/// How many chunks a rectangle has.
fn rectangle_size(grid: &ChunkGrid, r: &Rectangle) -> u32
    requires grid { IsChunkGrid grid.now }
    requires inside { IsInside grid.now r.now }
    ensures value { result ≡ length (chunks_with grid.now (covers grid.now.columns r.now)) }
    ensures small { result ≤ 16785409 }
{
    run_size(&r.x) * run_size(&r.z)
}

/// How many chunks a set has.
pub(crate) fn chunk_count(grid: &ChunkGrid, s: &ChunkSet) -> u32
    requires grid { IsChunkGrid grid.now }
    requires inside { IsSetInside grid.now s.now }
    ensures { result ≡ length (chunks_over grid.now s.now) }
{
    let both = rectangle_size(grid, &common(&s.first, &s.second));
    rectangle_size(grid, &s.first) + rectangle_size(grid, &s.second) - both
}

/// A list with room for so many chunks.
pub(crate) fn no_chunks(alloc: Global, room: u32) -> Result<Vec<u32>, Memory>
    ensures { IfOk result (λ chunks. chunks.items ≡ []) }
{
    Ok(Vec::with_capacity(alloc, room as usize)?)
}

/// Appends a chunk where the test holds.
pub(crate) fn push_if(chunks: &mut Vec<u32>, test: bool, chunk: u32) -> Result<(), Memory>
    ensures { OnOk result (chunks.new.items ≡ chunks.old.items ++ (if test then chunk ∷ [] else [])) }
{
    if !test {
        return Ok(());
    }
    chunks.push(chunk)?;
    Ok(())
}

/// The chunks of a set, by rising index.
pub(crate) fn listed_chunks(
    alloc: Global,
    grid: &ChunkGrid,
    s: &ChunkSet,
) -> Result<Vec<u32>, Memory>
    requires grid { IsChunkGrid grid.now }
    requires inside { IsSetInside grid.now s.now }
    ensures { IfOk result (λ chunks. chunks.items ≡ chunks_over grid.now s.now) }
{
    let mut chunks = no_chunks(alloc, chunk_count(grid, s))?;
    let whole = hull(&s.first, &s.second);
    for row in whole.z.from..whole.z.to {
        push_row(&mut chunks, grid, s, &whole.x, row)?;
    }
    Ok(chunks)
}

/// Appends the chunks of a row.
fn push_row(
    chunks: &mut Vec<u32>,
    grid: &ChunkGrid,
    s: &ChunkSet,
    columns: &Run,
    row: u32,
) -> Result<(), Memory>
    requires grid { IsChunkGrid grid.now }
    requires run { IsRunWithin columns.now grid.now.columns }
    requires row { row < grid.now.rows }
    ensures { OnOk result (chunks.new.items ≡ chunks.old.items ++ filter (is_in_set grid.now.columns s.now) (range_with_len (columns.now.from + row * grid.now.columns) (columns.now.to - columns.now.from))) }
{
    for column in columns.from..columns.to {
        let over = is_in_set(s, column, row);
        push_if(chunks, over, column + row * grid.columns)?;
    }
    Ok(())
}

#[tactic(auto, using(crate::proofs::ListingLemmas::set_at))]
fn is_in_set(s: &ChunkSet, column: u32, row: u32) -> bool
    ensures { (columns : ℕ) → column < columns → result ≡ is_in_set columns s.now (column + row * columns) }
{
    has_chunk(&s.first, column, row) || has_chunk(&s.second, column, row)
}
