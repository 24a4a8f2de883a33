//! The chunks of one or two boxes.

ghost use Rattle.std.specs.Prelude.{◌≡◌, List, [], ◌++◌};
ghost use Rattle.edit_terms.specs.Area.{Area};
ghost use Rattle.command_plan.specs.Cuts.{IsApart, IsCutOf, IsChunkSetOf};

use crate::rectangle::{ChunkSet, Rectangle, Run};

/// No chunk.
pub(crate) fn nothing() -> ChunkSet
    ensures nothing { (area : Area) → IsChunkSetOf area [] result }
    ensures apart { (area : Area) (boxes : List Area) → IsApart area boxes → IsChunkSetOf area boxes result }
{
    let none = Run { from: 0, to: 0 };
    let empty = Rectangle { x: none, z: none };
    ChunkSet {
        first: empty,
        second: empty,
    }
}

/// The chunks of a box that was cut.
#[tactic(auto, using(crate::proofs::ChunkSetLemmas::set_of_one))]
pub(crate) fn of_one(cut: Option<Rectangle>) -> ChunkSet
    ensures { (area : Area) (boxes : List Area) → IsCutOf area boxes cut → IsChunkSetOf area boxes result }
{
    match cut {
        None => nothing(),
        Some(own) => ChunkSet {
            first: own,
            second: own,
        },
    }
}

/// The chunks of two boxes that were cut.
#[tactic(auto, using(crate::proofs::ChunkSetLemmas::set_of_two, crate::proofs::ChunkSetLemmas::cut_with_apart, crate::proofs::ChunkSetLemmas::apart_with_cut))]
pub(crate) fn of_two(first: Option<Rectangle>, second: Option<Rectangle>) -> ChunkSet
    ensures { (area : Area) (xs ys : List Area) → IsCutOf area xs first → IsCutOf area ys second → IsChunkSetOf area (xs ++ ys) result }
{
    match (first, second) {
        (Some(first), Some(second)) => ChunkSet { first, second },
        (Some(first), None) => of_one(Some(first)),
        (None, second) => of_one(second),
    }
}
