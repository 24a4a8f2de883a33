//! What reached cores hold and what finished runs leave: laws, each the clauses of a function that does nothing.

ghost use Rattle.std.specs.Prelude.{◌≡◌, true, Bool, List, ℕ, ◌++◌};
ghost use Rattle.edit_terms.specs.declared.clip.Source.{Source};
ghost use Rattle.edit_terms.specs.Area.{is_world_box};
ghost use Rattle.edit_terms.specs.World.{IsWorld};
ghost use Rattle.run_terms.specs.Workload.{Workload};
ghost use Rattle.run_terms.specs.Limits.{IsWithinLimits};
ghost use Rattle.core_laws.specs.Core.{Core};
ghost use Rattle.core_laws.specs.Serial.{IsSerialCore};
ghost use Rattle.core_laws.specs.Settled.{HasPartOfSettledTickets, HoldsTruth, LeavesFinalWorld, SerialStatesStay};

/// Where all jobs of the first tickets on a chunk are done, and not all of the next one's, the chunk's blocks are the part of the
/// serial world after these tickets. What read jobs captured and write jobs kept there is true of the serial worlds, and that
/// of each job that is done is there.
pub fn reached_chunks_hold_truth()
    ensures blocks { (case : Workload) → IsWithinLimits case → is_world_box case.opening.area ≡ true → (keeps : Source → Bool) (core : Core) →
        IsSerialCore case keeps core → HasPartOfSettledTickets case core }
    ensures kept { (case : Workload) → IsWithinLimits case → is_world_box case.opening.area ≡ true → (keeps : Source → Bool) (core : Core) →
        IsSerialCore case keeps core → (chunk : ℕ) → HoldsTruth case keeps core chunk }
{}

/// Once all commands have their tickets and each job is done, the chunks together are the last world of the serial execution
/// of the order.
pub fn finished_chunks_are_the_final_world()
    ensures { (case : Workload) → IsWithinLimits case → is_world_box case.opening.area ≡ true → IsWorld case.opening →
        (keeps : Source → Bool) (core : Core) → IsSerialCore case keeps core → LeavesFinalWorld case core }
{}

/// A serial state of a chunk stays one when further tickets are taken.
pub fn serial_states_stay()
    ensures { (case : Workload) (keeps : Source → Bool) (order more : List ℕ) → SerialStatesStay case keeps order (order ++ more) }
{}
