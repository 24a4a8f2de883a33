//! The law of numbering a list by first appearance.
ghost use Rattle.std.specs.Prelude.{◌≡◌, ℕ, ◌<◌, ◌≤◌, length, take, All, Contains, slice_index};
ghost use Rattle.std.specs.List.{AllZip, IsDistinct};
ghost use Rattle.block_palette.specs.Numbering.{distinct, numbers, IsNumberOf};

/// Does nothing: its clauses say what holds of the distinct entries of `items` and of their numbers.
///
/// No two of the distinct entries are equal, and each is one of the items, so there are no more of them
/// than items. The number of an item names the entry that equals it, each entry is named by some item,
/// and an item's number is at most the count of the distinct entries of the items before it.
pub fn numbering_law<S: Eq>(items: &[S])
    ensures unique { IsDistinct S.eq (distinct S.eq items.now) }
    ensures few { length (distinct S.eq items.now) ≤ length items.now }
    ensures among { All (Contains items.now) (distinct S.eq items.now) }
    ensures named { AllZip (IsNumberOf S.eq (distinct S.eq items.now)) items.now (numbers S.eq items.now) }
    ensures used { (n : ℕ) → n < length (distinct S.eq items.now) → Contains (numbers S.eq items.now) n }
    ensures order { (k : ℕ) → k < length items.now →
        slice_index (numbers S.eq items.now) k ≤ length (distinct S.eq (take k items.now)) }
{}
