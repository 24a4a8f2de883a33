//! No dead end: a law, the clause of a function that does nothing.

ghost use Rattle.run_terms.specs.Workload.{Workload};
ghost use Rattle.core_laws.specs.Core.{Core};
ghost use Rattle.core_laws.specs.Progress.{HasNoDeadEnd};

/// While a ticket has a job that isn't done, some job is enabled, in any core.
pub fn some_job_is_enabled()
    ensures { (case : Workload) (core : Core) → HasNoDeadEnd case core }
{}
