//! The builder of a part.
ghost use Rattle.std.specs.Prelude.{◌≡◌, ◌+◌, ◌≤◌, [], ◌∷◌, ◌++◌, true, OnOk, OnErr};
ghost use Rattle.edit_terms.specs.Area.{volume};
ghost use Rattle.edit_terms.specs.Chunk.{chunk_box, place_in_chunk};
ghost use Rattle.change_set.specs.Changes.{rises};
ghost use Rattle.change_set.specs.Cells.{cell_positions, stretch_cells};
ghost use Rattle.change_set.specs.Part.{with_cells};

use crate::cell_runs::CellRuns;
use crate::part::Part;
use edit_terms::{Content, Pos, Source, WorldBox};
use memory::Memory;
use std::alloc::Global;
use std::marker::Model;

/// A part under construction, in index order.
///
/// A content is copied only where the part has none that is equal, and looked up only where a run begins: what
/// goes on where the cells ended, with the content of the last one, makes the last run longer.
#[derive(Drop)]
pub struct PartBuilder {
    alloc: Global,
    source: Source,
    chunk: u32,
    runs: CellRuns,
}

impl Model for PartBuilder {
    ghost use Rattle.change_set.specs.Part.{PartSoFar};

    ghost Value = { PartSoFar };

    ghost view = { λ b. record { area = b.runs.area; part = record { source = b.source; chunk = b.chunk; cells = b.runs.cells } } };
}

impl PartBuilder {
    /// No cells yet, of what a command captured in a chunk of a world of this box. Takes no memory.
    pub fn new(alloc: Global, area: &WorldBox, source: Source, chunk: u32) -> PartBuilder
        ensures empty { result ≡ record { area = area.now; part = record { source = source; chunk = chunk; cells = [] } } }
    {
        PartBuilder {
            alloc,
            source,
            chunk,
            runs: CellRuns::none(alloc, area),
        }
    }

    /// Puts a cell behind the others.
    ///
    /// After `Memory` the cells are as they were.
    pub fn push(&mut self, at: &Pos, content: &Content) -> Result<(), Memory>
        requires rising { rises self.old.area (cell_positions self.old.part.cells ++ at.now ∷ []) ≡ true }
        ensures area { self.new.area ≡ self.old.area }
        ensures added { OnOk result (self.new.part ≡ with_cells self.old.part ((at.now, content.now) ∷ [])) }
        ensures unchanged { OnErr result (self.new ≡ self.old) }
    {
        self.extend(at, 1, content)
    }

    /// Puts a stretch of cells of one content behind the others: so many cells of one chunk in index order,
    /// from the first one on, as the rest of a row of it, or whole layers.
    ///
    /// After `Memory` the cells are as they were.
    pub fn extend(&mut self, first: &Pos, count: u32, content: &Content) -> Result<(), Memory>
        requires rising { rises self.old.area (cell_positions self.old.part.cells ++ first.now ∷ []) ≡ true }
        requires fits { place_in_chunk self.old.area first.now + count ≤ volume (chunk_box self.old.area first.now) }
        ensures area { self.new.area ≡ self.old.area }
        ensures added { OnOk result (self.new.part ≡ with_cells self.old.part (stretch_cells self.old.area first.now count content.now)) }
        ensures unchanged { OnErr result (self.new ≡ self.old) }
    {
        self.runs.extend(self.alloc, first, count, content)
    }

    /// The part of the cells that were put.
    pub fn finish(self) -> Part
        ensures { result ≡ self.part }
    {
        Part::from_runs(self.source, self.chunk, self.runs)
    }
}
