//! What stays true as contents get numbers.

ghost use Rattle.std.specs.Prelude.{◌≡◌, ℕ, List};
ghost use Rattle.edit_terms.specs.Area.{Area};
ghost use Rattle.edit_terms.specs.World.{BlockContent};
ghost use Rattle.plain_terms.specs.Shown.{IsNumbered, world_shown};
ghost use Rattle.world_canvas.specs.declared.cell_change.CellChange.{CellChange};
ghost use Rattle.world_canvas.specs.Canvas.{IsGrown};
ghost use Rattle.world_canvas.specs.Changes.{AreChangesNamed, changes_shown};

/// Does nothing: where contents keep their numbers, worlds and changes that are kept by number stay what they
/// are, however many further contents have got numbers.
pub fn numbers_stay()
    ensures itself { (kinds : List BlockContent) → IsGrown kinds kinds }
    ensures again { (old middle new : List BlockContent) → IsGrown old middle → IsGrown middle new → IsGrown old new }
    ensures numbered { (area : Area) (old new : List BlockContent) (cells : List ℕ) → IsGrown old new → IsNumbered area old cells → IsNumbered area new cells }
    ensures world { (area : Area) (old new : List BlockContent) (cells : List ℕ) → IsGrown old new → IsNumbered area old cells → world_shown area new cells ≡ world_shown area old cells }
    ensures named { (old new : List BlockContent) (cs : List CellChange) → IsGrown old new → AreChangesNamed old cs → AreChangesNamed new cs }
    ensures changes { (old new : List BlockContent) (cs : List CellChange) → IsGrown old new → AreChangesNamed old cs → changes_shown new cs ≡ changes_shown old cs }
{}
