//! The session's history: edits that enter it, and those that an undo or a redo takes.

ghost use Rattle.std.specs.Prelude.{◌≡◌, ◌<◌, ◌+◌, ◌-◌, length, IfOk};
ghost use Rattle.run_terms.specs.Session.{undone_edits, redone_edits, entered, counted};

use crate::session::Session;
use edit_terms::Items;
use memory::Memory;
use std::alloc::Global;

impl Session {
    /// The edits that an undo of so many takes, the latest first.
    pub(super) fn undone_steps(&self, alloc: Global, count: u32) -> Result<Items<u32>, Memory>
        ensures { IfOk result (λ steps. steps ≡ undone_edits self.now count) }
    {
        let mut steps = Vec::from_slice(alloc, self.history.undone(count))?;
        steps.reverse();
        Ok(Items::from_vec(steps))
    }

    /// The edits that a redo of so many takes, the earliest first.
    pub(super) fn redone_steps(&self, alloc: Global, count: u32) -> Result<Items<u32>, Memory>
        ensures { IfOk result (λ steps. steps ≡ redone_edits self.now count) }
    {
        let steps = Vec::from_slice(alloc, self.history.redone(count))?;
        Ok(Items::from_vec(steps))
    }

    /// The next command is an edit, which enters the history. Takes no memory.
    pub(super) fn take_edit(&mut self)
        requires { self.old.number < 10000 }
        ensures { self.new ≡ counted (entered self.old) }
    {
        self.history.enter(self.depth, self.number);
        self.number += 1;
    }

    /// So many edits are taken back, or all before the cursor if they are fewer.
    pub(super) fn take_undo(&mut self, count: u32)
        requires { self.old.number < 10000 }
        ensures { self.new ≡ counted (record self.old { cursor = self.old.cursor - length (undone_edits self.old count) }) }
    {
        self.history.cursor -= self.history.undone(count).len();
        self.number += 1;
    }

    /// So many edits are done again, or all behind the cursor if they are fewer.
    pub(super) fn take_redo(&mut self, count: u32)
        requires { self.old.number < 10000 }
        ensures { self.new ≡ counted (record self.old { cursor = self.old.cursor + length (redone_edits self.old count) }) }
    {
        self.history.cursor += self.history.redone(count).len();
        self.number += 1;
    }
}
