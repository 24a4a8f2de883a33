//! The captured cells of a chunk.
ghost use Rattle.std.specs.Prelude.{◌≡◌, ◌≢◌, ◌^◌, ◌<◌, ℕ, length, Some, MatchOption, IsPermutation};
ghost use Rattle.edit_terms.specs.CellList.{position_in};
ghost use Rattle.change_set.specs.Sorted.{AreInOrder};

use crate::cell_runs::CellRuns;
use crate::sorted_cells::SortedCells;
use edit_terms::{BlockState, CellList, Content, Entity, Pos, Source, Stretch};
use std::marker::Model;
use std::sync::Arc;

/// The cells that a command captured in a chunk: positions with their contents, in index order.
///
/// Cells that come one by one are sorted in place (`from_cells`); those that a `PartBuilder` was given lie in
/// runs, so that their room grows with the breaks of the list and not with its length. Contracts don't tell
/// the two forms apart.
#[derive(Drop)]
pub struct Part {
    source: Source,
    chunk: u32,
    form: Form,
}

/// How the cells of a part are kept.
#[derive(Drop)]
enum Form {
    /// One by one.
    Sorted(SortedCells),
    /// As runs of one content.
    Runs(CellRuns),
}

impl Model for Part {
    ghost use Rattle.change_set.specs.Part.{PartCells};
    ghost use Rattle.change_set.specs.Forms.{cells_in};

    ghost Value = { PartCells };

    ghost view = { λ p. record { source = p.source; chunk = p.chunk; cells = cells_in p.form } };
}

impl Part {
    /// The part of these cells, which are sorted in place. Takes no memory.
    pub fn from_cells(source: Source, chunk: u32, cells: Vec<(Pos, Content)>) -> Part
        requires few { length cells.items < 2 ^ 32 }
        ensures source { result.source ≡ source }
        ensures chunk { result.chunk ≡ chunk }
        ensures permutation { IsPermutation cells.items result.cells }
        ensures in_order { AreInOrder result.cells }
    {
        Part {
            source,
            chunk,
            form: Form::Sorted(SortedCells::new(cells)),
        }
    }

    /// The part of these runs.
    pub(crate) fn from_runs(source: Source, chunk: u32, runs: CellRuns) -> Part
        ensures { result ≡ record { source = source; chunk = chunk; cells = runs.cells } }
    {
        Part {
            source,
            chunk,
            form: Form::Runs(runs),
        }
    }

    /// The command that captured the cells.
    pub fn source(&self) -> Source
        ensures { result ≡ self.now.source }
    {
        self.source
    }

    /// The chunk that they lie in.
    pub fn chunk(&self) -> u32
        ensures { result ≡ self.now.chunk }
    {
        self.chunk
    }

    /// The place of a cell of this position, by a search. None exactly where no cell has it.
    pub fn find(&self, p: &Pos) -> Option<u32>
        ensures { MatchOption result
            ((i : ℕ) → position_in self.now.cells i ≢ Some p.now)
            (λ i. position_in self.now.cells i ≡ Some p.now) }
    {
        match &self.form {
            Form::Sorted(cells) => cells.find(p),
            Form::Runs(runs) => runs.find(p),
        }
    }
}

impl CellList for Part {
    ghost cells = { λ p. p.cells };

    fn len(&self) -> u32 {
        match &self.form {
            Form::Sorted(cells) => cells.len(),
            Form::Runs(runs) => runs.len(),
        }
    }

    fn at(&self, i: u32) -> Pos {
        match &self.form {
            Form::Sorted(cells) => cells.at(i),
            Form::Runs(runs) => runs.at(i),
        }
    }

    fn state(&self, i: u32) -> &BlockState {
        match &self.form {
            Form::Sorted(cells) => cells.state(i),
            Form::Runs(runs) => runs.state(i),
        }
    }

    fn entity(&self, i: u32) -> Option<&Arc<Entity>> {
        match &self.form {
            Form::Sorted(cells) => cells.entity(i),
            Form::Runs(runs) => runs.entity(i),
        }
    }

    fn reach(&self, i: u32) -> u32 {
        match &self.form {
            Form::Sorted(cells) => cells.reach(i),
            Form::Runs(runs) => runs.reach(i),
        }
    }

    fn stretch(&self, i: u32) -> Option<Stretch> {
        match &self.form {
            Form::Sorted(cells) => cells.stretch(i),
            Form::Runs(runs) => runs.stretch(i),
        }
    }
}
