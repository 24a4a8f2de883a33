//! Extents cut by a world's box, by their columns of chunks.

ghost use Rattle.std.specs.Prelude.{◌≡◌, ℕ, ◌≤◌, pos, negsuc, ◌+ℤ◌, ◌-ℤ◌, ◌*ℤ◌, ◌≤ℤ◌, ◌<ℤ◌, [], ◌∷◌};
ghost use Rattle.edit_terms.specs.Area.{Area, offset, sixteenth};
ghost use Rattle.region_shapes.specs.Extents.{extent_of, IsPartOfMap};
ghost use Rattle.command_plan.specs.Cuts.{IsCutRun, IsCutOf};
ghost use Rattle.command_plan.specs.Rectangles.{chunk_grid_of, IsChunkGrid};

use crate::rectangle::{ChunkGrid, Rectangle, Run};
use edit_terms::WorldBox;
use region_shapes::{Extent, Interval, common, extent_of, is_empty};

/// The column of 16 of an interval's first number.
fn first_column(interval: &Interval) -> i64
    requires least { negsuc 33554431 ≤ℤ interval.now.from }
    requires most { interval.now.from ≤ℤ pos 33554432 }
    ensures value { result ≡ sixteenth interval.now.from }
    ensures low { (result *ℤ pos 16) ≤ℤ interval.now.from }
    ensures high { interval.now.from <ℤ (result *ℤ pos 16 +ℤ pos 16) }
{
    interval.from.div_euclid(16)
}

/// The column of 16 of its last number.
fn last_column(interval: &Interval) -> i64
    requires least { negsuc 33554431 <ℤ interval.now.to }
    requires most { interval.now.to ≤ℤ pos 33554432 }
    ensures value { result ≡ sixteenth (interval.now.to -ℤ pos 1) }
    ensures low { (result *ℤ pos 16) <ℤ interval.now.to }
    ensures high { interval.now.to ≤ℤ (result *ℤ pos 16 +ℤ pos 16) }
{
    (interval.to - 1).div_euclid(16)
}

/// How many columns of a box's own begin before that of the first shared number.
fn columns_to_first(own: &Interval, shared: &Interval) -> u32
    requires map { IsPartOfMap own.now }
    requires shared { IsPartOfMap shared.now }
    requires some { shared.now.from <ℤ shared.now.to }
    requires behind { own.now.from ≤ℤ shared.now.from }
    ensures value { result ≡ offset (sixteenth own.now.from) (sixteenth shared.now.from) }
    ensures small { result ≤ 268435456 }
{
    let base = first_column(own);
    (first_column(shared) - base) as u32
}

/// How many begin before that of the last one.
fn columns_to_last(own: &Interval, shared: &Interval) -> u32
    requires map { IsPartOfMap own.now }
    requires shared { IsPartOfMap shared.now }
    requires some { shared.now.from <ℤ shared.now.to }
    requires behind { own.now.from ≤ℤ shared.now.from }
    ensures value { result ≡ offset (sixteenth own.now.from) (sixteenth (shared.now.to -ℤ pos 1)) }
    ensures small { result ≤ 268435456 }
{
    let base = first_column(own);
    (last_column(shared) - base) as u32
}

/// The columns of what an interval has in common with a box's own.
fn cut_run(interval: &Interval, own: &Interval) -> Option<Run>
    requires { IsPartOfMap own.now }
    ensures { IsCutRun result interval.now own.now }
{
    let shared = common(interval, own);
    if is_empty(&shared) {
        return None;
    }
    Some(Run {
        from: columns_to_first(own, &shared),
        to: columns_to_last(own, &shared) + 1,
    })
}

/// The columns of chunks of a world's box.
#[tactic(auto, using(crate::proofs::CutLemmas::chunk_grid_is))]
pub(crate) fn chunk_grid_of(area: &WorldBox) -> ChunkGrid
    ensures value { result ≡ chunk_grid_of area.now }
    ensures grid { IsChunkGrid (chunk_grid_of area.now) }
{
    area.well_formed();
    ChunkGrid {
        columns: area.chunk_columns(),
        rows: area.chunk_rows(),
    }
}

/// The chunks of a world's box in which a position of an extent lies. None where there is no such position.
pub(crate) fn cut(extent: &Extent, area: &WorldBox) -> Option<Rectangle>
    ensures { (box : Area) → extent.now ≡ extent_of box → IsCutOf area.now (box ∷ []) result }
{
    let own = extent_of(area);
    let heights = common(&extent.y, &own.y);
    if is_empty(&heights) {
        return None;
    }
    let Some(x) = cut_run(&extent.x, &own.x) else {
        return None;
    };
    let Some(z) = cut_run(&extent.z, &own.z) else {
        return None;
    };
    Some(Rectangle { x, z })
}
