//! Laws of serial orders, each the clause of a function that does nothing.

ghost use Rattle.std.specs.Prelude.{List, ℕ};
ghost use Rattle.edit_terms.specs.declared.script.Script.{Script};
ghost use Rattle.run_terms.specs.Order.{IsLegalOrder, IsWholeOrder, AreTicketsNamed};

/// A whole order is legal.
#[tactic(auto, using(crate::proofs::OrderLemmas::legal_from_whole))]
pub fn whole_orders_are_legal()
    ensures { (scripts : List Script) (order : List ℕ) → IsWholeOrder scripts order → IsLegalOrder scripts order }
{}

/// Each ticket of an order is the ticket of its command id.
pub fn tickets_are_named()
    ensures { (order : List ℕ) → AreTicketsNamed order }
{}
