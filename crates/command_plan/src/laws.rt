//! A law of plans, the clause of a function that does nothing.

ghost use Rattle.std.specs.Prelude.{◌≡◌, ℕ};
ghost use Rattle.run_terms.specs.Workload.{Workload};
ghost use Rattle.command_plan.specs.Plan.{DependsOnTheScript};

/// What is planned for a player depends on the player's number and script, the box and the history's depth
/// alone.
#[tactic(auto, using(crate::proofs::LawLemmas::depends_on_the_script))]
pub fn plans_depend_on_the_script()
    ensures { (a b : Workload) (player : ℕ) → DependsOnTheScript a b player }
{}
