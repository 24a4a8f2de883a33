//! The rule of the table, and its four kinds of step.
use crate::view::View;
use atomic_table::{Join, Play, Seat, Split, Table, TableRule};
use edit_terms::Case;
use std::alloc::Global;

/// One order, of which every handle has seen a prefix; each word counts its player's entries.
pub struct OneOrder;

impl TableRule<(), View, Case> for OneOrder {
    ghost use Rattle.std.specs.Prelude.{true, []};
    ghost use Rattle.ticket_log.specs.Views.{view_of};
    ghost use Rattle.ticket_log.specs.Rule.{Kept};

    ghost holds = { Kept };

    ghost first = { λ case. view_of true [] };
}

/// The words, one a player.
pub type Words = Table<(), View, Case, OneOrder, Global>;

/// A handle of the table. It has no bytes.
pub type Handle = Seat<(), View>;

/// The step that appends a player.
pub struct Draw;

impl Play<(), View> for Draw {
    ghost use Rattle.ticket_log.specs.Rule.{Drew};

    ghost then = { Drew };
}

/// The step that learns that what was seen before are prefixes of what is seen now.
pub struct Load;

impl Play<(), View> for Load {
    ghost use Rattle.ticket_log.specs.Rule.{Learned};

    ghost then = { Learned };
}

/// A further handle that has seen as much, and doesn't draw.
pub struct Snapshot;

impl Split<View> for Snapshot {
    ghost use Rattle.ticket_log.specs.Views.{copied};

    ghost left = { λ v. v };

    ghost right = { copied };
}

/// Of two handles one that has seen what both have.
pub struct Merge;

impl Join<View> for Merge {
    ghost use Rattle.ticket_log.specs.Views.{joined, spent};

    ghost both = { joined };

    ghost spent = { spent };
}
