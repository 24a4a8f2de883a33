//! Changes of a world, kept as runs.
ghost use Rattle.std.specs.Prelude.{◌≡◌, ◌+◌, ◌<◌, ◌≤◌, [], ◌∷◌, ◌++◌, true, length, OnOk, OnErr};
ghost use Rattle.std.specs.List.{list_all};
ghost use Rattle.edit_terms.specs.Area.{volume};
ghost use Rattle.edit_terms.specs.Chunk.{chunk_box, place_in_chunk};
ghost use Rattle.change_set.specs.Changes.{rises, positions, is_change, kept_stretch, AreRunsOf};
ghost use Rattle.change_set.specs.Runs.{IsRunAt, lent_run};

use crate::numbered_runs::NumberedRuns;
use crate::read::RunAt;
use crate::run_list::RunList;
use edit_terms::{BlockState, CellList, Content, Entity, Pos, Stretch, WorldBox};
use memory::Memory;
use std::alloc::Global;
use std::marker::Model;
use std::sync::Arc;

/// The changes of a world: at strictly rising positions of its box, in index order, a content before and
/// another one after.
///
/// They are kept as runs, so their room grows with the breaks of the list and not with its length.
#[derive(Drop)]
pub struct Changes {
    runs: RunList,
}

impl Model for Changes {
    ghost use Rattle.std.specs.Prelude.{◌≡◌, true};
    ghost use Rattle.std.specs.List.{list_all};
    ghost use Rattle.change_set.specs.Changes.{ChangeList, is_change};

    ghost Value = { ChangeList };

    ghost view = { λ c. c.runs };

    ghost invariant = { λ c. list_all is_change c.runs.list ≡ true };
}

impl Changes {
    /// How many changes there are.
    #[tactic(auto, using(crate::proofs::ReadLemmas::as_many))]
    pub fn len(&self) -> u32
        ensures { result ≡ length self.now.list }
    {
        self.runs.len()
    }

    /// The runs of the changes in order: a break stands at the first change, at each one whose position is
    /// not the next cell of its chunk behind the one before, and at each one whose contents before and after
    /// are not those of the one before; a run goes from one break to the next. Each has cells of one chunk,
    /// its changes stand in the list from its place on, and it names its contents by numbers.
    pub fn runs(&self) -> NumberedRuns<'_>
        ensures { AreRunsOf self.now result.contents.now result.runs.now }
    {
        self.runs.runs()
    }

    /// The box of the world.
    pub fn area(&self) -> &WorldBox
        ensures { result.now ≡ self.now.area }
    {
        self.runs.area()
    }

    /// Does nothing: the positions are of the box and strictly rise in index order, and the contents of each
    /// change differ.
    pub fn well_formed(&self)
        ensures rising { rises self.now.area (positions self.now.list) ≡ true }
        ensures changing { list_all is_change self.now.list ≡ true }
    {
        self.runs.well_formed();
    }

    /// No changes of a world of this box.
    pub fn none(alloc: Global, area: &WorldBox) -> Changes
        ensures { result ≡ record { area = area.now; list = [] } }
    {
        Changes {
            runs: RunList::none(alloc, area),
        }
    }

    /// Puts a stretch of changes behind the others: so many cells of one chunk in index order, from the
    /// first one on. Equal contents are no change, and nothing is put then.
    ///
    /// After `Memory` the changes are as they were.
    pub(crate) fn extend(
        &mut self,
        alloc: Global,
        first: &Pos,
        count: u32,
        before: &Content,
        after: &Content,
    ) -> Result<(), Memory>
        requires rising { rises self.old.area (positions self.old.list ++ first.now ∷ []) ≡ true }
        requires fits { place_in_chunk self.old.area first.now + count ≤ volume (chunk_box self.old.area first.now) }
        ensures area { self.new.area ≡ self.old.area }
        ensures added { OnOk result (self.new.list ≡ self.old.list ++ kept_stretch self.old.area first.now count before.now after.now) }
        ensures unchanged { OnErr result (self.new ≡ self.old) }
    {
        if before == after {
            return Ok(());
        }
        self.runs.extend(alloc, first, count, before, after)?;
        Ok(())
    }

    /// The run that has the change at a place of the list.
    pub(crate) fn run_of(&self, i: u32) -> RunAt<'_>
        requires { i < length self.now.list }
        ensures { IsRunAt self.now.area self.now.list i (lent_run result) }
    {
        self.runs.run_of(i)
    }
}

impl CellList for Changes {
    ghost use Rattle.change_set.specs.Changes.{afters};

    ghost cells = { λ c. afters c.list };

    fn len(&self) -> u32 {
        CellList::len(&self.runs)
    }

    fn at(&self, i: u32) -> Pos {
        self.runs.at(i)
    }

    fn state(&self, i: u32) -> &BlockState {
        self.runs.state(i)
    }

    fn entity(&self, i: u32) -> Option<&Arc<Entity>> {
        self.runs.entity(i)
    }

    fn reach(&self, i: u32) -> u32 {
        self.runs.reach(i)
    }

    fn stretch(&self, i: u32) -> Option<Stretch> {
        self.runs.stretch(i)
    }
}
