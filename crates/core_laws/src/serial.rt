//! The central theorem, the clause of a function that does nothing.

ghost use Rattle.std.specs.Prelude.{◌≡◌, true, Bool};
ghost use Rattle.edit_terms.specs.declared.clip.Source.{Source};
ghost use Rattle.edit_terms.specs.Area.{is_world_box};
ghost use Rattle.run_terms.specs.Workload.{Workload};
ghost use Rattle.run_terms.specs.Limits.{IsWithinLimits};
ghost use Rattle.core_laws.specs.Serial.{KeepsTaken, ReachesSerialCores};

/// Whatever events come, each enabled when it comes: the tickets taken so far are a legal order, and each chunk's state is
/// that of the serial execution of this order up to some ticket of it, perhaps with that ticket's read job. Its blocks are the part
/// of the serial world, and what its read jobs captured and its write jobs kept are those of the serial worlds.
pub fn reached_chunks_are_serial()
    ensures { (case : Workload) → IsWithinLimits case → is_world_box case.opening.area ≡ true → (keeps : Source → Bool) → KeepsTaken case keeps →
        ReachesSerialCores case keeps }
{}
