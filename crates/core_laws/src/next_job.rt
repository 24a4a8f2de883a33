//! A chunk's next job is one event of the machine: a law, the clauses of a function that does nothing.

ghost use Rattle.std.specs.Prelude.{◌≡◌, true, Bool, List, ℕ};
ghost use Rattle.edit_terms.specs.declared.clip.Source.{Source};
ghost use Rattle.edit_terms.specs.Area.{is_world_box};
ghost use Rattle.run_terms.specs.Workload.{Workload};
ghost use Rattle.run_terms.specs.Order.{IsLegalOrder};
ghost use Rattle.run_terms.specs.Limits.{IsWithinLimits};
ghost use Rattle.core_laws.specs.NextJob.{ReadsAreEvents, WritesAreEvents};
ghost use Rattle.core_laws.specs.Serial.{KeepsTaken};

/// For each serial state of a chunk, and each job of a ticket of the order whose turn it is there: some run of the machine reaches
/// this state, the job is enabled then, and it leads the chunk to its next serial state.
pub fn next_jobs_are_events()
    ensures reads { (case : Workload) → IsWithinLimits case → is_world_box case.opening.area ≡ true → (keeps : Source → Bool) → KeepsTaken case keeps →
        (order : List ℕ) → IsLegalOrder case.scripts order → ReadsAreEvents case keeps order }
    ensures writes { (case : Workload) → IsWithinLimits case → is_world_box case.opening.area ≡ true → (keeps : Source → Bool) → KeepsTaken case keeps →
        (order : List ℕ) → IsLegalOrder case.scripts order → WritesAreEvents case keeps order }
{}
