//! Captured cells that are kept as runs.
ghost use Rattle.std.specs.Prelude.{◌≡◌, ◌≢◌, ◌+◌, ◌≤◌, ℕ, [], ◌∷◌, ◌++◌, true, Some, MatchOption, OnOk, OnErr};
ghost use Rattle.edit_terms.specs.Area.{volume};
ghost use Rattle.edit_terms.specs.CellList.{position_in};
ghost use Rattle.edit_terms.specs.Chunk.{chunk_box, place_in_chunk};
ghost use Rattle.change_set.specs.Changes.{rises};
ghost use Rattle.change_set.specs.Cells.{cell_positions, stretch_cells};

use crate::run_list::RunList;
use edit_terms::{BlockState, CellList, Content, Entity, Pos, Stretch, WorldBox};
use memory::Memory;
use std::alloc::Global;
use std::marker::Model;
use std::sync::Arc;

/// Cells of a world: at strictly rising positions of its box, in index order, a content. They are kept as runs of
/// changes at which the content stays.
#[derive(Drop)]
pub(crate) struct CellRuns {
    runs: RunList,
}

impl Model for CellRuns {
    ghost use Rattle.change_set.specs.Changes.{afters};
    ghost use Rattle.change_set.specs.Cells.{BoxCells};

    ghost Value = { BoxCells };

    ghost view = { λ c. record { area = c.runs.area; cells = afters c.runs.list } };
}

impl CellRuns {
    /// No cells of a world of this box. Takes no memory.
    pub(crate) fn none(alloc: Global, area: &WorldBox) -> CellRuns
        ensures { result ≡ record { area = area.now; cells = [] } }
    {
        CellRuns {
            runs: RunList::none(alloc, area),
        }
    }

    /// Puts a stretch of cells of one content behind the others: so many cells of one chunk in index order,
    /// from the first one on.
    ///
    /// After `Memory` the cells are as they were.
    pub(crate) fn extend(
        &mut self,
        alloc: Global,
        first: &Pos,
        count: u32,
        content: &Content,
    ) -> Result<(), Memory>
        requires rising { rises self.old.area (cell_positions self.old.cells ++ first.now ∷ []) ≡ true }
        requires fits { place_in_chunk self.old.area first.now + count ≤ volume (chunk_box self.old.area first.now) }
        ensures area { self.new.area ≡ self.old.area }
        ensures added { OnOk result (self.new.cells ≡ self.old.cells ++ stretch_cells self.old.area first.now count content.now) }
        ensures unchanged { OnErr result (self.new ≡ self.old) }
    {
        self.runs.extend(alloc, first, count, content, content)
    }

    /// The place of a cell of this position. None exactly where no cell has it.
    pub(crate) fn find(&self, p: &Pos) -> Option<u32>
        ensures { MatchOption result
            ((i : ℕ) → position_in self.now.cells i ≢ Some p.now)
            (λ i. position_in self.now.cells i ≡ Some p.now) }
    {
        self.runs.find(p)
    }
}

impl CellList for CellRuns {
    ghost cells = { λ c. c.cells };

    fn len(&self) -> u32 {
        self.runs.len()
    }

    fn at(&self, i: u32) -> Pos {
        self.runs.at(i)
    }

    fn state(&self, i: u32) -> &BlockState {
        self.runs.state(i)
    }

    fn entity(&self, i: u32) -> Option<&Arc<Entity>> {
        self.runs.entity(i)
    }

    fn reach(&self, i: u32) -> u32 {
        self.runs.reach(i)
    }

    fn stretch(&self, i: u32) -> Option<Stretch> {
        self.runs.stretch(i)
    }
}
