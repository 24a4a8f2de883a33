ghost use Rattle.std.specs.Prelude.{◌≡◌, ◌<◌, ◌++◌, [], ◌∷◌, length};
ghost use mathlib.Core.List.{IsPrefix};
ghost use Rattle.run_terms.specs.Order.{turns_of, lines_of, IsLegalOrder};

use crate::log::Log;
use crate::name::RunName;
use crate::pass::Pass;
use crate::rule::Handle;
use std::marker::{Model, PhantomData};

/// The appender of a log, of which there is one. Contracts see the order so far: the players of all tickets that
/// were drawn, from ticket 0 on.
#[derive(Drop)]
pub struct Drawer<N: RunName> {
    pub(crate) handle: Handle,
    pub(crate) tickets: u32,
    pub(crate) counts: Vec<u32>,
    pub(crate) of: PhantomData<N>,
}

impl<N: RunName> Model for Drawer<N> {
    ghost use Rattle.std.specs.Prelude.{ℕ, List};

    ghost Value = { List ℕ };

    ghost use Rattle.ticket_log.specs.Handles.{IsAppender};

    ghost view = { λ d. d.handle.me.0.order };

    ghost invariant = { λ d. IsAppender N.table N.case d.handle.table_id d.handle.me d.tickets d.counts.items };
}

/// A drawn ticket, and the place of its command in its player's script, both from 0.
#[derive(Clone, Copy, Debug, PartialEq, Eq)]
pub struct Drawn {
    pub ticket: u32,
    pub step: u32,
}

impl<N: RunName> Drawer<N> {
    /// How many tickets the player has drawn.
    pub fn drawn(&self, player: u32) -> u32
        requires { player < length N.case.scripts }
        ensures count { result ≡ turns_of player self.now }
        ensures legal { IsLegalOrder N.case.scripts self.now }
    {
        self.counts[player as usize]
    }

    /// Draws the next ticket for a player who has commands left. One atomic step; it waits for nobody and takes
    /// no memory.
    pub fn draw(&mut self, log: &Log<N>, player: u32) -> Drawn
        requires { turns_of player self.old < length (lines_of N.case.scripts player) }
        ensures order { self.new ≡ self.old ++ player ∷ [] }
        ensures ticket { result.ticket ≡ length self.old }
        ensures step { result.step ≡ turns_of player self.old }
    {
        let step = log.append(&mut self.handle, player);
        let ticket = self.tickets;
        self.tickets = ticket + 1;
        self.counts[player as usize] = step + 1;
        Drawn { ticket, step }
    }

    /// A snapshot of the whole order so far. It waits for nobody and takes no memory.
    pub fn pass(&mut self, log: &Log<N>) -> Pass<N>
        ensures whole { result ≡ self.old }
        ensures same { self.new ≡ self.old }
    {
        Pass {
            handle: log.copy(&mut self.handle),
            seen: self.tickets,
            of: PhantomData,
        }
    }

    /// Brings a snapshot up to the whole order so far. It waits for nobody and takes no memory.
    pub fn meet(&mut self, log: &Log<N>, pass: &mut Pass<N>)
        ensures same { self.new ≡ self.old }
        ensures met { pass.new ≡ self.old }
        ensures kept { IsPrefix pass.old pass.new }
    {
        let other = log.copy(&mut pass.handle);
        log.take_in(&mut self.handle, other);
        pass.handle = log.copy(&mut self.handle);
        pass.seen = self.tickets;
    }
}
