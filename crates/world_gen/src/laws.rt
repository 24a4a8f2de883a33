//! The drill's players keep apart, so that its serial order is free: laws, each the clause of a function that does nothing.

ghost use Rattle.std.specs.Prelude.{ℕ};
ghost use Rattle.access_laws.specs.OrderFree.{IsFreeOfOrder, OrderIsFree};
ghost use Rattle.world_gen.specs.Drill.{drill_workload};

/// No two players' commands access a common chunk, and none asks for a random word.
#[tactic(auto, using(crate::proofs::ApartLemmas::players_keep_apart))]
pub fn drill_players_keep_apart()
    ensures { (number : ℕ) → IsFreeOfOrder (drill_workload number) }
{}

/// Whatever the whole order, each command has the same reply and the final world is the same.
pub fn drill_order_is_free()
    ensures { (number : ℕ) → OrderIsFree (drill_workload number) }
{}
