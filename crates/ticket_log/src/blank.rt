ghost use Rattle.std.specs.Prelude.{◌≡◌, [], IfOk};
ghost use Rattle.ticket_log.specs.Orders.{IsLoggable};

use crate::drawer::Drawer;
use crate::log::Log;
use crate::name::RunName;
use crate::rule::{Handle, Words};
use edit_terms::Case;
use memory::Memory;
use std::alloc::Global;
use std::marker::{Model, PhantomData};

/// A log with no ticket drawn, which has no name yet. Contracts see which table and which case are its own.
#[derive(Drop)]
pub struct BlankLog {
    table: Words,
    handle: Handle,
    counts: Vec<u32>,
}

impl Model for BlankLog {
    ghost use Rattle.ticket_log.specs.Identity.{Identity};

    ghost Value = { Identity };

    ghost use Rattle.ticket_log.specs.Handles.{IsBlank};

    ghost view = { λ b. record { table = b.table.shared.table_id; case = b.table.shared.key } };

    ghost invariant = { λ b. IsBlank b.table.shared.table_id b.table.shared.key b.handle.table_id b.handle.me b.counts.items };
}

impl BlankLog {
    /// A new log for a case of 1 to 64 scripts of at most 10,000 commands each. All room for its draws is
    /// taken here.
    pub fn new(alloc: Global, case: &Case) -> Result<BlankLog, Memory>
        requires { IsLoggable case.now }
        ensures { IfOk result (λ blank. blank.case ≡ case.now) }
    {
        let players = case.scripts.as_slice().len();
        let zeros = vec![in alloc; 0u64; players]?;
        let counts = vec![in alloc; 0u32; players]?;
        let (table, handle) = Words::of_words(alloc, zeros.as_slice(), case)?;
        Ok(BlankLog {
            table,
            handle,
            counts,
        })
    }

    /// The log under a name whose members are this blank's, and its appender with the empty order.
    pub fn named<N: RunName>(self) -> (Log<N>, Drawer<N>)
        requires table { self.table ≡ N.table }
        requires case { self.case ≡ N.case }
        ensures { result.1 ≡ [] }
    {
        let BlankLog {
            table,
            handle,
            counts,
        } = self;
        let log = Log {
            table,
            of: PhantomData,
        };
        let drawer = Drawer {
            handle,
            tickets: 0,
            counts,
            of: PhantomData,
        };
        (log, drawer)
    }
}
