ghost use Rattle.std.specs.Prelude.{◌≡◌, length};
ghost use mathlib.Core.List.{IsPrefix};
ghost use Rattle.run_terms.specs.Order.{IsLegalOrder};
ghost use Rattle.ticket_log.specs.Orders.{longer};

use crate::log::Log;
use crate::name::RunName;
use crate::rule::Handle;
use std::marker::{Model, PhantomData};

/// A snapshot of the order: the players of the first so many tickets. Contracts see that list.
///
/// It takes a few bytes whatever its length, as the list itself exists in proofs alone. Of any two snapshots of one
/// log the shorter is a prefix of the longer; [`meet`] and [`crate::Drawer::meet`] show it of the two at hand.
#[derive(Drop)]
pub struct Pass<N: RunName> {
    pub(crate) handle: Handle,
    pub(crate) seen: u32,
    pub(crate) of: PhantomData<N>,
}

impl<N: RunName> Model for Pass<N> {
    ghost use Rattle.std.specs.Prelude.{ℕ, List};

    ghost Value = { List ℕ };

    ghost use Rattle.ticket_log.specs.Handles.{IsSnapshot};

    ghost view = { λ p. p.handle.me.0.order };

    ghost invariant = { λ p. IsSnapshot N.table N.case p.handle.table_id p.handle.me p.seen };
}

impl<N: RunName> Pass<N> {
    /// How many tickets it has seen.
    pub fn seen(&self) -> u32
        ensures count { result ≡ length self.now }
        ensures legal { IsLegalOrder N.case.scripts self.now }
    {
        self.seen
    }

    /// A copy, for another thread. It waits for nobody and takes no memory.
    pub fn fork(&mut self, log: &Log<N>) -> Pass<N>
        ensures copy { result ≡ self.old }
        ensures same { self.new ≡ self.old }
    {
        Pass {
            handle: log.copy(&mut self.handle),
            seen: self.seen,
            of: PhantomData,
        }
    }
}

/// Synchronizes two snapshots: both then have seen what the longer of them had. It waits for nobody and takes no
/// memory.
pub fn meet<N: RunName>(log: &Log<N>, a: &mut Pass<N>, b: &mut Pass<N>)
    ensures first { a.new ≡ longer a.old b.old }
    ensures second { b.new ≡ longer a.old b.old }
    ensures first_kept { IsPrefix a.old a.new }
    ensures second_kept { IsPrefix b.old b.new }
{
    let other = log.copy(&mut b.handle);
    log.take_in(&mut a.handle, other);
    b.handle = log.copy(&mut a.handle);
    a.seen = a.seen.max(b.seen);
    b.seen = a.seen;
}
