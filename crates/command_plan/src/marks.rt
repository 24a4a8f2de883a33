//! Marks of chunks, one a chunk.

ghost use Rattle.std.specs.Prelude.{◌≡◌, ℕ, ◌+◌, ◌*◌, ◌<◌, ◌≤◌, ◌||◌, ◌&&◌, ◌∷◌, nat_le, nat_lt, false, All, IfOk, List, count_by, filter, get_or, length};
ghost use Rattle.std.specs.List.{list_any, range_with_len};
ghost use Rattle.command_plan.specs.ResolvedScripts.{AreInside, is_written, no_footprint, marked};
ghost use Rattle.command_plan.specs.Rectangles.{IsChunkGrid, IsInside, IsSetInside, covers, is_in_set};

use crate::footprint::Footprint;
use crate::listing::{no_chunks, push_if};
use crate::rectangle::{ChunkGrid, ChunkSet, Rectangle};
use memory::Memory;
use std::alloc::Global;

/// Takes all marks away.
fn clear(marks: &mut [bool])
    ensures { (k : ℕ) → get_or marks.new k false ≡ false }
{
    for mark in marks.iter_mut() {
        *mark = false;
    }
}

/// Marks the chunks from the one up to but without the other.
fn mark_run(marks: &mut [bool], from: u32, to: u32)
    requires order { from ≤ to }
    requires within { to ≤ length marks.old }
    ensures { (k : ℕ) → get_or marks.new k false ≡ (get_or marks.old k false || (nat_le from k && nat_lt k to)) }
{
    for chunk in from..to {
        marks[chunk as usize] = true;
    }
}

fn mark_rectangle(marks: &mut [bool], grid: &ChunkGrid, r: &Rectangle)
    requires grid { IsChunkGrid grid.now }
    requires inside { IsInside grid.now r.now }
    requires marks { length marks.old ≡ grid.now.columns * grid.now.rows }
    ensures { (k : ℕ) → get_or marks.new k false ≡ (get_or marks.old k false || covers grid.now.columns r.now k) }
{
    for row in r.z.from..r.z.to {
        let start = row * grid.columns;
        mark_run(marks, r.x.from + start, r.x.to + start);
    }
}

fn mark_set(marks: &mut [bool], grid: &ChunkGrid, s: &ChunkSet)
    requires grid { IsChunkGrid grid.now }
    requires inside { IsSetInside grid.now s.now }
    requires marks { length marks.old ≡ grid.now.columns * grid.now.rows }
    ensures { (k : ℕ) → get_or marks.new k false ≡ (get_or marks.old k false || is_in_set grid.now.columns s.now k) }
{
    mark_rectangle(marks, grid, &s.first);
    mark_rectangle(marks, grid, &s.second);
}

/// Marks what these commands write by themselves.
fn mark_writes(marks: &mut [bool], grid: &ChunkGrid, footprints: &[Footprint], commands: &[u32])
    requires grid { IsChunkGrid grid.now }
    requires inside { AreInside grid.now footprints.now }
    requires commands { All (λ n. n < length footprints.now) commands.now }
    requires marks { length marks.old ≡ grid.now.columns * grid.now.rows }
    ensures { (k : ℕ) → get_or marks.new k false ≡ (get_or marks.old k false || is_written grid.now.columns footprints.now commands.now k) }
{
    for command in commands {
        mark_set(marks, grid, &footprints[*command as usize].writes);
    }
}

/// Marks exactly what a command and those that it takes write.
pub(crate) fn mark_command(
    marks: &mut [bool],
    grid: &ChunkGrid,
    footprints: &[Footprint],
    command: u32,
    taken: &[u32],
)
    requires grid { IsChunkGrid grid.now }
    requires inside { AreInside grid.now footprints.now }
    requires own { command < length footprints.now }
    requires taken { All (λ n. n < length footprints.now) taken.now }
    requires marks { length marks.old ≡ grid.now.columns * grid.now.rows }
    ensures { (k : ℕ) → get_or marks.new k false ≡ is_written grid.now.columns footprints.now (command ∷ taken.now) k }
{
    clear(marks);
    mark_set(marks, grid, &footprints[command as usize].writes);
    mark_writes(marks, grid, footprints, taken);
}

fn true_count(marks: &[bool]) -> usize
    ensures { result ≡ count_by (λ mark. mark) marks.now }
{
    marks.iter().filter(|mark| **mark).count()
}

/// How many chunks are marked.
#[tactic(auto, using(crate::proofs::MarkLemmas::marked_counted, crate::proofs::MarkLemmas::few_marked))]
pub(crate) fn marked_count(marks: &[bool]) -> u32
    requires { length marks.now ≤ 16785409 }
    ensures { result ≡ length (marked marks.now) }
{
    true_count(marks) as u32
}

/// The chunks that are marked, by rising index.
pub(crate) fn marked_chunks(alloc: Global, marks: &[bool]) -> Result<Vec<u32>, Memory>
    requires { length marks.now ≤ 16785409 }
    ensures { IfOk result (λ chunks. chunks.items ≡ marked marks.now) }
{
    let mut chunks = no_chunks(alloc, marked_count(marks))?;
    for chunk in 0..marks.len() as u32 {
        push_if(&mut chunks, marks[chunk as usize], chunk)?;
    }
    Ok(chunks)
}
