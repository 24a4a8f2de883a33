//! The builder of changes.
ghost use Rattle.std.specs.Prelude.{◌≡◌, ◌+◌, ◌≤◌, [], ◌∷◌, ◌++◌, true, OnOk, OnErr};
ghost use Rattle.edit_terms.specs.Area.{volume};
ghost use Rattle.edit_terms.specs.Chunk.{chunk_box, place_in_chunk};
ghost use Rattle.change_set.specs.Changes.{positions, rises, kept_stretch, kept_change};

use crate::changes::Changes;
use edit_terms::{Content, Pos, WorldBox};
use memory::Memory;
use std::alloc::Global;
use std::marker::Model;

/// Changes under construction, in index order.
///
/// A content is copied only where the changes have none that is equal, and looked up only where a run begins:
/// what goes on where the changes ended makes the last run longer.
#[derive(Drop)]
pub struct ChangeBuilder {
    alloc: Global,
    changes: Changes,
}

impl Model for ChangeBuilder {
    ghost use Rattle.change_set.specs.Changes.{ChangeList};

    ghost Value = { ChangeList };

    ghost view = { λ b. b.changes };
}

impl ChangeBuilder {
    /// No changes yet, of a world of this box. Takes no memory.
    pub fn new(alloc: Global, area: &WorldBox) -> ChangeBuilder
        ensures empty { result ≡ record { area = area.now; list = [] } }
    {
        ChangeBuilder {
            alloc,
            changes: Changes::none(alloc, area),
        }
    }

    /// Puts a change behind the others. Equal contents are no change, and nothing is put then.
    ///
    /// After `Memory` the changes are as they were.
    pub fn push(&mut self, at: &Pos, before: &Content, after: &Content) -> Result<(), Memory>
        requires rising { rises self.old.area (positions self.old.list ++ at.now ∷ []) ≡ true }
        ensures area { self.new.area ≡ self.old.area }
        ensures added { OnOk result (self.new.list ≡ self.old.list ++ kept_change (record { at = at.now; before = before.now; after = after.now })) }
        ensures unchanged { OnErr result (self.new ≡ self.old) }
    {
        self.changes.extend(self.alloc, at, 1, before, after)
    }

    /// Puts a stretch of changes behind the others: so many cells of one chunk in index order, from the
    /// first one on, as the rest of a row of it, or whole layers. Equal contents are no change, and nothing
    /// is put then.
    ///
    /// After `Memory` the changes are as they were.
    pub fn extend(
        &mut self,
        first: &Pos,
        count: u32,
        before: &Content,
        after: &Content,
    ) -> Result<(), Memory>
        requires rising { rises self.old.area (positions self.old.list ++ first.now ∷ []) ≡ true }
        requires fits { place_in_chunk self.old.area first.now + count ≤ volume (chunk_box self.old.area first.now) }
        ensures area { self.new.area ≡ self.old.area }
        ensures added { OnOk result (self.new.list ≡ self.old.list ++ kept_stretch self.old.area first.now count before.now after.now) }
        ensures unchanged { OnErr result (self.new ≡ self.old) }
    {
        self.changes.extend(self.alloc, first, count, before, after)
    }

    /// The changes that were put.
    pub fn finish(self) -> Changes
        ensures { result ≡ self }
    {
        self.changes
    }
}
