//! Captured cells that are kept one by one.
ghost use Rattle.std.specs.Prelude.{◌≡◌, ◌≢◌, ◌^◌, ◌<◌, ℕ, length, Some, MatchOption, IsPermutation};
ghost use Rattle.edit_terms.specs.CellList.{position_in};
ghost use Rattle.change_set.specs.Sorted.{AreInOrder};

use crate::read::{entity_of, state_of};
use edit_terms::{BlockState, CellList, Content, Entity, Pos, Stretch};
use std::marker::Model;
use std::sync::Arc;

/// Positions with their contents, in index order.
#[derive(Debug, Drop)]
pub(crate) struct SortedCells {
    cells: Vec<(Pos, Content)>,
}

impl Model for SortedCells {
    ghost use Rattle.std.specs.Prelude.{List};
    ghost use Rattle.edit_terms.specs.declared.pos.Pos.{Pos};
    ghost use Rattle.edit_terms.specs.World.{BlockContent};
    ghost use Rattle.change_set.specs.Sorted.{AreSorted};

    ghost Value = { List (Pos × BlockContent) };

    ghost view = { λ c. c.cells.items };

    ghost invariant = { λ c. AreSorted c.cells.items };
}

impl SortedCells {
    /// These cells, which are sorted in place. Takes no memory.
    pub(crate) fn new(cells: Vec<(Pos, Content)>) -> SortedCells
        requires few { length cells.items < 2 ^ 32 }
        ensures permutation { IsPermutation cells.items result }
        ensures in_order { AreInOrder result }
    {
        let mut cells = cells;
        cells.sort_unstable_by_key(|cell| order_key(&cell.0));
        SortedCells { cells }
    }

    /// The place of a cell of this position. None exactly where no cell has it.
    pub(crate) fn find(&self, p: &Pos) -> Option<u32>
        ensures { MatchOption result
            ((i : ℕ) → position_in self.now i ≢ Some p.now)
            (λ i. position_in self.now i ≡ Some p.now) }
    {
        let place = self
            .cells
            .binary_search_by_key(&order_key(p), |cell| order_key(&cell.0));
        match place {
            Ok(place) => Some(place as u32),
            Err(_gap) => None,
        }
    }
}

/// What cells are ordered by: y, then z, then x.
fn order_key(p: &Pos) -> (i32, i32, i32)
    ensures { result ≡ (p.now.y, p.now.z, p.now.x) }
{
    (p.y, p.z, p.x)
}

impl CellList for SortedCells {
    ghost cells = { λ c. c };

    fn len(&self) -> u32 {
        self.cells.len() as u32
    }

    fn at(&self, i: u32) -> Pos {
        self.cells[i as usize].0
    }

    fn state(&self, i: u32) -> &BlockState {
        state_of(&self.cells[i as usize].1)
    }

    fn entity(&self, i: u32) -> Option<&Arc<Entity>> {
        match self.cells.get(i as usize) {
            None => None,
            Some(cell) => entity_of(&cell.1),
        }
    }

    fn reach(&self, _i: u32) -> u32 {
        1
    }

    fn stretch(&self, _i: u32) -> Option<Stretch> {
        None
    }
}
