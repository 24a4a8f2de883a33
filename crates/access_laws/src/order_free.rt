//! The serial order doesn't matter where players keep apart: laws, each the clause of a function that does nothing.

ghost use Rattle.std.specs.Prelude.{◌≡◌, true};
ghost use Rattle.edit_terms.specs.declared.clip.Source.{Source};
ghost use Rattle.edit_terms.specs.declared.outcome.Outcome.{Outcome};
ghost use Rattle.edit_terms.specs.Area.{is_world_box};
ghost use Rattle.edit_terms.specs.World.{IsWorld};
ghost use Rattle.run_terms.specs.Workload.{Workload};
ghost use Rattle.run_terms.specs.Order.{step_of_command};
ghost use Rattle.run_terms.specs.Limits.{IsWithinLimits};
ghost use Rattle.run_terms.specs.Reply.{IsOutcome};
ghost use Rattle.access_laws.specs.OrderFree.{AreScriptsStill, DifferInOrderAlone, IsFreeOfOrder, OrderIsFree, is_still};

/// Where no mask of the scripts has a noise leaf and no pattern has a choice, no command asks for a random word.
#[tactic(auto, using(crate::proofs::StillScripts::commands_still))]
pub fn still_scripts_draw_nothing()
    ensures { (case : Workload) → AreScriptsStill case.scripts → (id : Source) → is_still (step_of_command case id) ≡ true }
{}

/// Where no two players' commands access a common chunk and no command asks for a random word, each command's
/// reply and the final world are the same whatever the whole order.
pub fn order_is_free()
    ensures { (case : Workload) → IsWithinLimits case → is_world_box case.opening.area ≡ true → IsWorld case.opening →
        IsFreeOfOrder case → OrderIsFree case }
{}

/// Two outcomes of such a case have the same world and the same reply to each command, whatever their orders.
pub fn outcomes_differ_in_order_alone()
    ensures { (case : Workload) → IsWithinLimits case → is_world_box case.opening.area ≡ true → IsWorld case.opening →
        IsFreeOfOrder case → (first second : Outcome) → IsOutcome case first → IsOutcome case second →
        DifferInOrderAlone case first second }
{}
