//! Laws of boxes: each function does nothing, and its clauses are the law.

ghost use Rattle.std.specs.Prelude.{◌≡◌, ℕ, ◌<◌, true};
ghost use Rattle.edit_terms.specs.declared.pos.Pos.{Pos};
ghost use Rattle.edit_terms.specs.Area.{Area, IsBlockAt, holds, index_of, is_world_box, position_of, volume};

/// The index of a block and the block at an index are inverse: each block of a box is the one at its index,
/// which is below the volume, and the block at an index of a world's box is of the box and has that index.
#[tactic(auto, using(crate::proofs::AreaLemmas::position_at_index, crate::proofs::AreaLemmas::held_below))]
pub fn index_and_position()
    ensures position { (a : Area) (p : Pos) → holds a p ≡ true → position_of a (index_of a p) ≡ p }
    ensures below { (a : Area) (p : Pos) → holds a p ≡ true → index_of a p < volume a }
    ensures index { (a : Area) (i : ℕ) → is_world_box a ≡ true → i < volume a → IsBlockAt a i (position_of a i) }
{}
