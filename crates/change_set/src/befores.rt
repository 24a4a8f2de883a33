//! Changes as lists of cells by their contents before.
ghost use Rattle.std.specs.Prelude.{◌≡◌};
ghost use Rattle.change_set.specs.Changes.{ChangeList};

use crate::changes::Changes;
use crate::read::{entity_of, position_in_run, rest_of, state_of};
use edit_terms::{BlockState, CellList, Entity, Pos, Stretch};
use std::sync::Arc;

/// Changes by their contents before.
#[derive(Drop)]
pub struct Befores<'a> {
    changes: &'a Changes,
}

impl Changes {
    /// The same changes by their contents before.
    pub fn befores(&self) -> Befores<'_>
        ensures { result.changes.now ≡ self.now }
    {
        Befores { changes: self }
    }
}

impl CellList for Befores<'_> {
    ghost use Rattle.change_set.specs.Changes.{befores};

    ghost cells = { λ b. befores b.changes.now.list };

    #[tactic(auto, using(crate::proofs::ReadLemmas::as_many))]
    fn len(&self) -> u32 {
        self.changes.len()
    }

    fn at(&self, i: u32) -> Pos {
        let run = self.changes.run_of(i);
        position_in_run(self.changes.area(), &run.first, i - run.start)
    }

    fn state(&self, i: u32) -> &BlockState {
        let run = self.changes.run_of(i);
        state_of(run.before)
    }

    fn entity(&self, i: u32) -> Option<&Arc<Entity>> {
        if i >= self.changes.len() {
            return None;
        }
        let run = self.changes.run_of(i);
        entity_of(run.before)
    }

    fn reach(&self, i: u32) -> u32 {
        let run = self.changes.run_of(i);
        run.length - (i - run.start)
    }

    fn stretch(&self, i: u32) -> Option<Stretch> {
        let run = self.changes.run_of(i);
        let area = self.changes.area();
        Some(rest_of(area, &run.first, run.length, i - run.start))
    }
}
