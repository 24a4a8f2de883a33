ghost use Rattle.std.specs.Prelude.{◌≡◌, ◌+◌, ◌*◌, ◌++◌, ◌<◌, ◌≤◌, ◌^◌, true, IfOk, OnOk};
ghost use Rattle.std.specs.List.{All, Contains, range_with_len};
ghost use Rattle.edit_terms.specs.declared.pos.Pos.{Pos};
ghost use Rattle.edit_terms.specs.Area.{holds, chunk_of, is_part};
ghost use Rattle.region_shapes.specs.Chunks.{is_rising_from, IsTouched, chunk_rows, chunk_list};

use crate::chunk_columns::{Columns, columns_x, columns_z};
use edit_terms::{Memory, Pos, WorldBox};
use std::alloc::Global;

/// The indexes of the chunks of a box that have a block of a part of the box, rising. A chunk is a column of
/// 16 by 16 blocks by x and z, and its index that of `WorldBox::chunk_of`. An Err comes of want of memory
/// alone.
#[tactic(auto, using(crate::proofs::ChunkLemmas::chunk_list_rising, crate::proofs::ChunkLemmas::chunk_list_touched, crate::proofs::ChunkLemmas::chunk_list_whole))]
pub fn chunks_of(alloc: Global, part: &WorldBox, area: &WorldBox) -> Result<Vec<u32>, Memory>
    requires { is_part part.now area.now ≡ true }
    ensures rising { IfOk result (λ v. is_rising_from 0 v.items ≡ true) }
    ensures touched { IfOk result (λ v. All (IsTouched part.now area.now) v.items) }
    ensures whole { IfOk result (λ v. (p : Pos) → holds part.now p ≡ true → Contains v.items (chunk_of area.now p)) }
{
    part.well_formed();
    listed_chunks(alloc, part, area)
}

fn listed_chunks(alloc: Global, part: &WorldBox, area: &WorldBox) -> Result<Vec<u32>, Memory>
    requires { is_part part.now area.now ≡ true }
    ensures { IfOk result (λ v. v.items ≡ chunk_list part.now area.now) }
{
    let x = columns_x(part, area);
    let z = columns_z(part, area);
    chunk_rows(alloc, &x, &z)
}

fn chunk_rows(alloc: Global, x: &Columns, z: &Columns) -> Result<Vec<u32>, Memory>
    requires x { x.now.first + x.now.count ≤ x.now.whole }
    requires z { z.now.first + z.now.count ≤ z.now.whole }
    requires few_x { x.now.whole ≤ 4097 }
    requires few_z { z.now.whole ≤ 4097 }
    ensures { IfOk result (λ v. v.items ≡ chunk_rows x.now.first x.now.count x.now.whole z.now.first z.now.count) }
{
    let mut chunks = Vec::new(alloc);
    for row in z.first..z.first + z.count {
        push_run(&mut chunks, x.first + row * x.whole, x.count)?;
    }
    Ok(chunks)
}

/// Appends so many consecutive numbers.
fn push_run(chunks: &mut Vec<u32>, first: u32, count: u32) -> Result<(), Memory>
    requires { first + count < 2 ^ 32 }
    ensures { OnOk result (chunks.new.items ≡ chunks.old.items ++ range_with_len first count) }
{
    for index in first..first + count {
        chunks.push(index)?;
    }
    Ok(())
}
