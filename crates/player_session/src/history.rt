//! The edits of a session that can be taken back or done again.

ghost use Rattle.std.specs.Prelude.{◌≡◌, ◌∷◌, ◌++◌, ◌≤◌, [], length, take, drop, reverse, IfOk, nat_le, vec_capacity};
ghost use Rattle.run_terms.specs.Session.{last_of};

use memory::Memory;
use std::alloc::Global;

/// A history: its edits by their numbers in the player's script, the oldest first, and how many of them
/// stand before its cursor. Those behind the cursor were taken back.
#[derive(Debug, Drop)]
pub(crate) struct History {
    pub(crate) edits: Vec<u32>,
    pub(crate) cursor: usize,
}

impl History {
    /// An empty history with room for this many edits.
    pub(crate) fn start(alloc: Global, depth: u32) -> Result<History, Memory>
        ensures edits { IfOk result (λ history. history.edits.items ≡ []) }
        ensures cursor { IfOk result (λ history. history.cursor ≡ 0) }
        ensures room { IfOk result (λ history. depth ≤ vec_capacity history.edits) }
    {
        Ok(History {
            edits: Vec::with_capacity(alloc, depth as usize)?,
            cursor: 0,
        })
    }

    /// Whether no edit stands behind the cursor.
    pub(crate) fn is_at_end(&self) -> bool
        ensures { result ≡ nat_le (length self.now.edits.items) self.now.cursor }
    {
        self.edits.len() <= self.cursor
    }

    /// The edits that an undo of so many takes, the oldest first: the last ones before the cursor, or all of
    /// them if they are fewer.
    pub(crate) fn undone(&self, count: u32) -> &[u32]
        requires { self.now.cursor ≤ length self.now.edits.items }
        ensures { reverse result.now ≡ take count (reverse (take self.now.cursor self.now.edits.items)) }
    {
        let first = self.cursor.saturating_sub(count as usize);
        &self.edits[first..self.cursor]
    }

    /// The edits that a redo of so many takes, the oldest first: the first ones behind the cursor, or all of
    /// them if they are fewer.
    pub(crate) fn redone(&self, count: u32) -> &[u32]
        requires { self.now.cursor ≤ length self.now.edits.items }
        ensures { result.now ≡ take count (drop self.now.cursor self.now.edits.items) }
    {
        let behind = &self.edits[self.cursor..];
        let end = behind.len().min(count as usize);
        &behind[..end]
    }

    /// An edit enters at the cursor: those behind it go, and the oldest too where the history would be
    /// longer than its depth. Takes no memory.
    pub(crate) fn enter(&mut self, depth: u32, number: u32)
        requires low { 1 ≤ depth }
        requires within { length self.old.edits.items ≤ depth }
        requires among { self.old.cursor ≤ length self.old.edits.items }
        requires room { depth ≤ vec_capacity self.old.edits }
        ensures edits { self.new.edits.items ≡ last_of depth (take self.old.cursor self.old.edits.items ++ number ∷ []) }
        ensures cursor { self.new.cursor ≡ length self.new.edits.items }
        ensures room { vec_capacity self.new.edits ≡ vec_capacity self.old.edits }
    {
        self.edits.truncate(self.cursor);
        if self.edits.len() == depth as usize {
            self.edits.remove(0);
        }
        self.edits.push_reserved(number);
        self.cursor = self.edits.len();
    }
}
