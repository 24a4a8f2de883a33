//! Which chunks a command reads and writes by itself.

ghost use Rattle.std.specs.Prelude.{◌≡◌, ◌≤◌, ◌∷◌, [], IfSome, Some, None};
ghost use Rattle.std.specs.Option.{option_and_then};
ghost use Rattle.edit_terms.specs.Area.{Area};
ghost use Rattle.edit_terms.specs.Clipboard.{clip_box_of};
ghost use Rattle.edit_terms.specs.Frame.{frame_of, frame_of_selection};
ghost use Rattle.run_terms.specs.Access.{moved_box, stacked_boxes, single_box, pasted_boxes};
ghost use Rattle.run_terms.specs.SessionLimits.{IsClipWithin, IsSpecWithin, IsStepWithin};
ghost use Rattle.region_shapes.specs.Extents.{extent_of};
ghost use Rattle.command_plan.specs.Cuts.{IsCutOf, IsChunkSetOf};
ghost use Rattle.command_plan.specs.Footprints.{IsFootprint, IsWorkFootprint};

use crate::chunk_set::{nothing, of_one, of_two};
use crate::cutting::cut;
use crate::rectangle::{ChunkSet, Rectangle};
use crate::single::single_extent;
use crate::stacking::{moved, stacked};
use clipboard_transform::{clip_box, placed_extent};
use edit_terms::{Clip, Direction, Pos, Region, Selection, Spec, Step, Work, WorldBox};
use region_shapes::{Extent, frame_of, frame_of_selection};

/// The chunks that a command reads and those that it writes, without those of edits that it takes.
#[derive(Clone, Copy, Debug, Drop)]
pub(crate) struct Footprint {
    pub(crate) reads: ChunkSet,
    pub(crate) writes: ChunkSet,
}

/// The chunks in which a position of an extent lies.
fn extent_chunks(extent: &Extent, area: &WorldBox) -> ChunkSet
    ensures { (box : Area) → extent.now ≡ extent_of box → IsChunkSetOf area.now (box ∷ []) result }
{
    of_one(cut(extent, area))
}

fn filled_chunks(region: &Region, area: &WorldBox) -> ChunkSet
    ensures { IsChunkSetOf area.now (frame_of region.now ∷ []) result }
{
    extent_chunks(&frame_of(region), area)
}

fn selected_rectangle(from: &Selection, area: &WorldBox) -> Option<Rectangle>
    ensures { IsCutOf area.now (frame_of_selection from.now ∷ []) result }
{
    cut(&frame_of_selection(from), area)
}

fn selected_chunks(from: &Selection, area: &WorldBox) -> ChunkSet
    ensures { IsChunkSetOf area.now (frame_of_selection from.now ∷ []) result }
{
    extent_chunks(&frame_of_selection(from), area)
}

fn target_rectangle(
    from: &Selection,
    to: Direction,
    count: u32,
    area: &WorldBox,
) -> Option<Rectangle>
    ensures { IsCutOf area.now (moved_box to count (frame_of_selection from.now) ∷ []) result }
{
    cut(&moved(&frame_of_selection(from), to, count), area)
}

fn moved_chunks(from: &Selection, to: Direction, count: u32, area: &WorldBox) -> ChunkSet
    ensures { IsChunkSetOf area.now (frame_of_selection from.now ∷ moved_box to count (frame_of_selection from.now) ∷ []) result }
{
    of_two(
        selected_rectangle(from, area),
        target_rectangle(from, to, count, area),
    )
}

fn stacked_chunks(from: &Selection, to: Direction, count: u32, area: &WorldBox) -> ChunkSet
    requires { count ≤ 1000 }
    ensures { IsChunkSetOf area.now (stacked_boxes count to (frame_of_selection from.now)) result }
{
    extent_chunks(&stacked(&frame_of_selection(from), to, count), area)
}

fn single_chunk(at: &Pos, area: &WorldBox) -> ChunkSet
    ensures { IsChunkSetOf area.now (single_box at.now ∷ []) result }
{
    extent_chunks(&single_extent(at), area)
}

#[tactic(auto, using(clipboard_transform::proofs::MapLemmas::on_map))]
fn clip_chunks(place: &Pos, clip: &Clip, area: &WorldBox) -> ChunkSet
    requires { IsClipWithin clip.now }
    ensures { IsChunkSetOf area.now (pasted_boxes place.now (clip_box_of clip.now area.now)) result }
{
    match clip_box(clip, area) {
        None => nothing(),
        Some(bounds) => extent_chunks(&placed_extent(place, &bounds), area),
    }
}

fn pasted_chunks(place: &Pos, clip: &Option<Clip>, area: &WorldBox) -> ChunkSet
    requires { IfSome clip.now IsClipWithin }
    ensures { IsChunkSetOf area.now (pasted_boxes place.now (option_and_then (λ c. clip_box_of c area.now) clip.now)) result }
{
    match clip {
        None => nothing(),
        Some(clip) => clip_chunks(place, clip, area),
    }
}

/// No chunk.
fn untouched() -> Footprint
    ensures reads { (area : Area) → IsChunkSetOf area [] result.reads }
    ensures writes { (area : Area) → IsChunkSetOf area [] result.writes }
{
    Footprint {
        reads: nothing(),
        writes: nothing(),
    }
}

#[tactic(auto, using(crate::proofs::FootprintLemmas::few_copies))]
fn of_spec(spec: &Spec, area: &WorldBox) -> Footprint
    requires { IsSpecWithin spec.now }
    ensures { IsWorkFootprint area.now spec.now.clip spec.now.work result }
{
    match &spec.work {
        Work::Fill { region, .. } => Footprint {
            reads: nothing(),
            writes: filled_chunks(region, area),
        },
        Work::Stack { from, count, to } => Footprint {
            reads: selected_chunks(from, area),
            writes: stacked_chunks(from, *to, *count, area),
        },
        Work::Move { from, count, to } => Footprint {
            reads: selected_chunks(from, area),
            writes: moved_chunks(from, *to, *count, area),
        },
        Work::Copy { from } => Footprint {
            reads: selected_chunks(from, area),
            writes: nothing(),
        },
        Work::Cut { from } => Footprint {
            reads: selected_chunks(from, area),
            writes: selected_chunks(from, area),
        },
        Work::Paste { place, .. } => Footprint {
            reads: nothing(),
            writes: pasted_chunks(place, &spec.clip, area),
        },
        Work::Put { at, .. } => Footprint {
            reads: nothing(),
            writes: single_chunk(at, area),
        },
        Work::Undo { .. } => untouched(),
        Work::Redo { .. } => untouched(),
    }
}

/// Which chunks a resolved command reads and writes by itself.
pub(crate) fn footprint_of(step: &Step, area: &WorldBox) -> Footprint
    requires { IsStepWithin step.now }
    ensures { IsFootprint area.now step.now result }
{
    match step {
        Step::Job(spec) => of_spec(spec, area),
        Step::Settled => untouched(),
        Step::Refused(_) => untouched(),
    }
}
