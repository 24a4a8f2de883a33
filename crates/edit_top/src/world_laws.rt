//! A law of the worlds that runs leave, the clause of a function that does nothing.

ghost use Rattle.std.specs.Prelude.{ℕ, ◌≤◌, List, length};
ghost use Rattle.edit_terms.specs.Area.{volume};
ghost use Rattle.edit_terms.specs.World.{IsWorld};
ghost use Rattle.run_terms.specs.Reply.{final_world};
ghost use Rattle.run_terms.specs.Workload.{Workload};
ghost use Rattle.sponge_schematic.specs.Carried.{CarriedTags};
ghost use Rattle.sponge_schematic.specs.Read.{IsWritable};

/// Where a world can be written beside its file's carried tags, so can every world that commands make of it.
#[tactic(auto, using(crate::proofs::Writable::writable_after))]
pub fn last_worlds_are_writable()
    ensures { (carried : CarriedTags) (case : Workload) (order : List ℕ) → IsWorld case.opening
        → volume case.opening.area ≤ 33554432 → length carried.loose ≤ 268435456
        → IsWritable carried case.opening → IsWritable carried (final_world case order) }
{}
