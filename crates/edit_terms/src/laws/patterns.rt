//! Laws of patterns and clipboards: each function does nothing, and its clauses are the law.

ghost use Rattle.std.specs.Prelude.{◌≡◌, ℕ, ◌<◌, ◌^◌, true, List, [], ◌∷◌, length, Some, IfSome, is_some, All, Contains};
ghost use Rattle.edit_terms.specs.declared.pos.Pos.{Pos};
ghost use Rattle.edit_terms.specs.declared.clip.Clip.{Clip};
ghost use Rattle.edit_terms.specs.declared.pattern.Entry.{Entry};
ghost use Rattle.edit_terms.specs.declared.pattern.Pattern.{Pattern};
ghost use Rattle.edit_terms.specs.Area.{Area, holds, volume};
ghost use Rattle.edit_terms.specs.Frame.{IsSelection};
ghost use Rattle.edit_terms.specs.World.{BlockContent, World};
ghost use Rattle.edit_terms.specs.Draw.{draw_word};
ghost use Rattle.edit_terms.specs.declared.transform.Transform.{Transform};
ghost use Rattle.edit_terms.specs.Transform.{turned_position};
ghost use Rattle.edit_terms.specs.Clipboard.{CopiedBlocks, clipboard_of, is_in_bounds, turned_area, tile_of};
ghost use Rattle.edit_terms.specs.Pattern.{chosen_entry, placed, pattern_value};

/// A word of 32 bits, as each random word is, chooses one of a pattern's entries, where there are some and
/// their weights are positive.
pub fn some_entry_is_chosen()
    ensures some { (word : ℕ) (entries : List Entry) → word < 2 ^ 32 → 0 < length entries →
        All (λ e. 0 < e.weight) entries → is_some (chosen_entry word entries) ≡ true }
    ensures among { (word : ℕ) (entries : List Entry) → IfSome (chosen_entry word entries) (Contains entries) }
    ensures bits { (seed ticket use_number : ℕ) (p : Pos) → draw_word seed ticket use_number p < 2 ^ 32 }
{}

/// Of one entry that one is chosen, and the pattern gives its value.
pub fn the_only_entry_is_chosen()
    ensures chosen { (word : ℕ) (e : Entry) → word < 2 ^ 32 → 0 < e.weight → chosen_entry word (e ∷ []) ≡ Some e }
    ensures value { (pattern : Pattern) (e : Entry) (copied : CopiedBlocks) (seed ticket : ℕ) (p : Pos) (old : BlockContent) →
        pattern.entries ≡ e ∷ [] → 0 < e.weight → pattern_value pattern copied seed ticket p old ≡ placed copied p e.value old }
{}

/// The cells of a clipboard lie in its bounds, where the selection's positions fit 32 bits as those of code do.
pub fn clipboard_cells_lie_in_its_bounds()
    ensures { (clip : Clip) (w : World) → IsSelection clip.from → (r : Pos) →
        is_some ((clipboard_of clip w).at r) ≡ true → is_in_bounds (clipboard_of clip w) r ≡ true }
{}

/// A box after a transform has the positions of the box after it; and the position of a tile lies in the bounds that
/// are repeated.
pub fn boxes_of_a_clipboard()
    ensures turned { (t : Transform) (a : Area) (r : Pos) → holds (turned_area t a) (turned_position t r) ≡ holds a r }
    ensures tile { (bounds : Area) (p : Pos) → 0 < volume bounds → holds bounds (tile_of bounds p) ≡ true }
{}
