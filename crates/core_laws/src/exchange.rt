//! Events commute: a law, the clause of a function that does nothing.

ghost use Rattle.std.specs.Prelude.{Bool};
ghost use Rattle.edit_terms.specs.declared.clip.Source.{Source};
ghost use Rattle.run_terms.specs.Workload.{Workload};
ghost use Rattle.core_laws.specs.Core.{Core};
ghost use Rattle.core_laws.specs.Exchange.{EventsExchange};

/// Two enabled jobs on different chunks, or an enabled job and a command that may take its ticket, may come in either order:
/// each stays enabled after the other, and both orders lead to the same core.
pub fn events_exchange()
    ensures { (case : Workload) (keeps : Source → Bool) (core : Core) → EventsExchange case keeps core }
{}
