//! A list of cells with two contents each, kept as runs.
ghost use Rattle.std.specs.Prelude.{◌≡◌, ◌≢◌, ◌+◌, ◌<◌, ◌≤◌, ℕ, [], ◌∷◌, ◌++◌, true, length, Some, slice_get, MatchOption, OnOk, OnErr};
ghost use Rattle.edit_terms.specs.Area.{volume};
ghost use Rattle.edit_terms.specs.Chunk.{chunk_box, place_in_chunk};
ghost use Rattle.change_set.specs.Changes.{rises, positions, stretch, AreRunsOf};
ghost use Rattle.change_set.specs.Runs.{IsRunAt, lent_run};

use crate::contents::{Pair, number_pair};
use crate::grow::{goes_on, lengthen_last};
use crate::numbered_runs::NumberedRuns;
use crate::read::{RunAt, entity_of, position_in_run, rest_of, run_at, state_of};
use crate::run::Run;
use crate::search::find_in_runs;
use block_palette::Palette;
use edit_terms::{BlockState, CellList, Content, Entity, Pos, Stretch, WorldBox};
use memory::Memory;
use std::alloc::Global;
use std::marker::Model;
use std::sync::Arc;

/// At strictly rising positions of a box, in index order, a content before and one after, which may be equal.
///
/// They are kept as runs, so their room grows with the breaks of the list and not with its length; each content is
/// kept once, and runs name it by its number.
#[derive(Drop)]
pub(crate) struct RunList {
    area: WorldBox,
    contents: Palette<Content>,
    runs: Vec<Run>,
    count: u32,
}

impl Model for RunList {
    ghost use Rattle.change_set.specs.Changes.{ChangeList, changes_of};
    ghost use Rattle.change_set.specs.ContentRun.{all_looked_up};
    ghost use Rattle.change_set.specs.Runs.{AreRunsKept};

    ghost Value = { ChangeList };

    ghost view = { λ r. record { area = r.area; list = changes_of r.area (all_looked_up r.contents r.runs.items) } };

    ghost invariant = { λ r. AreRunsKept r.area r.contents r.runs.items r.count };
}

impl RunList {
    /// Nothing of a box. Takes no memory.
    pub(crate) fn none(alloc: Global, area: &WorldBox) -> RunList
        ensures { result ≡ record { area = area.now; list = [] } }
    {
        RunList {
            area: *area,
            contents: Palette::new(alloc),
            runs: Vec::new(alloc),
            count: 0,
        }
    }

    /// The box.
    pub(crate) fn area(&self) -> &WorldBox
        ensures { result.now ≡ self.now.area }
    {
        &self.area
    }

    /// Does nothing: the positions are of the box and strictly rise in index order.
    pub(crate) fn well_formed(&self)
        ensures { rises self.now.area (positions self.now.list) ≡ true }
    {
        let _count = self.count;
    }

    /// The runs.
    pub(crate) fn runs(&self) -> NumberedRuns<'_>
        ensures { AreRunsOf self.now result.contents.now result.runs.now }
    {
        let _distinct = self.contents.len();
        NumberedRuns {
            contents: &self.contents,
            runs: &self.runs,
        }
    }

    /// Puts a stretch behind the others: so many cells of one chunk in index order, from the first one on.
    ///
    /// After `Memory` the list is as it was.
    pub(crate) fn extend(
        &mut self,
        alloc: Global,
        first: &Pos,
        count: u32,
        before: &Content,
        after: &Content,
    ) -> Result<(), Memory>
        requires rising { rises self.old.area (positions self.old.list ++ first.now ∷ []) ≡ true }
        requires fits { place_in_chunk self.old.area first.now + count ≤ volume (chunk_box self.old.area first.now) }
        ensures area { self.new.area ≡ self.old.area }
        ensures added { OnOk result (self.new.list ≡ self.old.list ++ stretch self.old.area first.now count before.now after.now) }
        ensures unchanged { OnErr result (self.new ≡ self.old) }
    {
        if count == 0 {
            return Ok(());
        }
        self.area.well_formed();
        if goes_on(&self.area, &self.contents, &self.runs, first, before, after) {
            lengthen_last(&mut self.runs, count);
            self.count += count;
            return Ok(());
        }
        let pair = number_pair(
            alloc,
            &mut self.contents,
            last_pair(&self.runs),
            before,
            after,
        )?;
        let run = Run {
            first: *first,
            start: self.count,
            length: count,
            before: pair.before,
            after: pair.after,
        };
        self.runs.push(run)?;
        self.count += count;
        Ok(())
    }

    /// The run that has a place of the list.
    pub(crate) fn run_of(&self, i: u32) -> RunAt<'_>
        requires { i < length self.now.list }
        ensures { IsRunAt self.now.area self.now.list i (lent_run result) }
    {
        run_at(&self.area, &self.contents, &self.runs, i)
    }

    /// The place of a position. None exactly where no cell has it.
    pub(crate) fn find(&self, p: &Pos) -> Option<u32>
        ensures { MatchOption result
            ((i : ℕ) → slice_get (positions self.now.list) i ≢ Some p.now)
            (λ i. slice_get (positions self.now.list) i ≡ Some p.now) }
    {
        self.area.well_formed();
        find_in_runs(&self.area, &self.runs, p)
    }
}

/// The numbers of the last run's contents; any, where there is no run.
fn last_pair(runs: &[Run]) -> Pair {
    match runs.last() {
        Some(run) => Pair {
            before: run.before,
            after: run.after,
        },
        None => Pair {
            before: 0,
            after: 0,
        },
    }
}

impl CellList for RunList {
    ghost use Rattle.change_set.specs.Changes.{afters};

    ghost cells = { λ r. afters r.list };

    #[tactic(auto, using(crate::proofs::ReadLemmas::as_many))]
    fn len(&self) -> u32 {
        self.count
    }

    fn at(&self, i: u32) -> Pos {
        let run = self.run_of(i);
        position_in_run(self.area(), &run.first, i - run.start)
    }

    fn state(&self, i: u32) -> &BlockState {
        let run = self.run_of(i);
        state_of(run.after)
    }

    fn entity(&self, i: u32) -> Option<&Arc<Entity>> {
        if i >= self.len() {
            return None;
        }
        let run = self.run_of(i);
        entity_of(run.after)
    }

    fn reach(&self, i: u32) -> u32 {
        let run = self.run_of(i);
        run.length - (i - run.start)
    }

    fn stretch(&self, i: u32) -> Option<Stretch> {
        let run = self.run_of(i);
        Some(rest_of(self.area(), &run.first, run.length, i - run.start))
    }
}
