use std::marker::Brand;

/// The identity of a run in types: which log, and of which case. It has no functions and no values.
///
/// Every type that carries a name `N` keeps that its log's table is `N.table` and its case `N.case`. So two
/// snapshots of one name are of one log and one case, in whatever thread they are.
///
/// A log exists before its name does. Make a [`crate::BlankLog`], and hand it to a function that is
/// generic over `N: RunName` and has no type with `N` in its signature. Call that function with std's
/// `Brand`: the proof of the call picks the two members, the table and the case of the blank.
pub trait RunName: Send + Sync {
    ghost use Rattle.atomic_table.specs.Seated.{TableId};
    ghost use Rattle.edit_terms.specs.declared.script.Case.{Case};

    /// The log's table of words.
    ghost table: { TableId };

    /// The case of the run.
    ghost case: { Case };
}

impl RunName for Brand {
    ghost use Rattle.ticket_log.specs.Identity.{no_table, no_case};

    ghost table = { no_table };

    ghost case = { no_case };
}
