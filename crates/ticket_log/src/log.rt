ghost use Rattle.std.specs.Prelude.{◌≡◌, ◌<◌, ◌++◌, [], ◌∷◌, length, true, false};
ghost use mathlib.Core.List.{IsPrefix};
ghost use Rattle.run_terms.specs.Order.{turns_of, lines_of};
ghost use Rattle.ticket_log.specs.Orders.{IsLoggable};
ghost use Rattle.ticket_log.specs.Views.{settled, joined};
ghost use Rattle.ticket_log.specs.Handles.{IsHandle};

use crate::name::RunName;
use crate::rule::{Draw, Handle, Load, Merge, Snapshot, Words};
use std::marker::PhantomData;

/// The log of one run under its name, which all threads share by reference.
#[derive(Drop)]
pub struct Log<N: RunName> {
    pub(crate) table: Words,
    pub(crate) of: PhantomData<N>,
    pub(crate) ghost table_is: { table.shared.table_id ≡ N.table },
    pub(crate) ghost case_is: { table.shared.key ≡ N.case },
    pub(crate) ghost words: { N.table.words ≡ length N.case.scripts },
    pub(crate) ghost loggable: { IsLoggable N.case },
}

impl<N: RunName> Log<N> {
    // Draw: appends a player to the order, and answers how often it stood there before.
    pub(crate) fn append(&self, handle: &mut Handle, player: u32) -> u32
        requires handle { IsHandle N.table true handle.old.table_id handle.old.me }
        requires left { turns_of player handle.old.me.0.order < length (lines_of N.case.scripts player) }
        ensures handle { IsHandle N.table true handle.new.table_id handle.new.me }
        ensures order { handle.new.me.0.order ≡ handle.old.me.0.order ++ player ∷ [] }
        ensures count { result ≡ turns_of player handle.old.me.0.order }
    {
        let shared = &self.table.shared;
        shared.fetch_add::<Draw>(handle, player as usize, 1) as u32
    }

    // Split: a further handle that has seen as much, and doesn't draw.
    pub(crate) fn copy(&self, handle: &mut Handle) -> Handle
        requires own { handle.old.table_id ≡ N.table }
        ensures same { (handle.new.table_id ≡ handle.old.table_id) × (handle.new.me ≡ handle.old.me) }
        ensures copy { IsHandle N.table false result.table_id result.me }
        ensures order { result.me.0.order ≡ handle.old.me.0.order }
    {
        self.table.shared.split_seat::<Snapshot>(handle)
    }

    // Join and load: a handle takes in what another has seen, and learns that both had seen prefixes of what it
    // then has seen.
    pub(crate) fn take_in(&self, handle: &mut Handle, other: Handle)
        requires own { handle.old.table_id ≡ N.table }
        requires other { IsHandle N.table false other.table_id other.me }
        ensures same { (handle.new.table_id ≡ handle.old.table_id) × (handle.new.me.1 ≡ handle.old.me.1) }
        ensures view { handle.new.me.0 ≡ settled (joined handle.old.me.0 other.me.0) }
        ensures own { IsPrefix handle.old.me.0.order handle.new.me.0.order }
        ensures taken { IsPrefix other.me.0.order handle.new.me.0.order }
    {
        let shared = &self.table.shared;
        shared.join_seat::<Merge>(handle, other);
        shared.load::<Load>(handle, 0);
    }
}
