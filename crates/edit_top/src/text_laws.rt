//! Laws of what is printed, each the clause of a function that does nothing.

ghost use Rattle.std.specs.Prelude.{◌≡◌, ℕ, List};
ghost use Rattle.edit_terms.specs.declared.script.Script.{Script};
ghost use Rattle.edit_top.specs.ShownOrder.{AreNamed, HaveOwnTexts};
ghost use Rattle.edit_top.specs.DrillText.{IsDrillText};

/// The printed text of an order tells it from all other orders.
#[tactic(auto, using(crate::proofs::ShownOrder::own_texts))]
pub fn printed_order_is_unique()
    ensures { (scripts : List Script) → AreNamed scripts → HaveOwnTexts scripts }
{}

/// The text of a drill tells nothing but its number: whatever order its run took, it is the same.
pub fn drill_text_is_unique()
    ensures { (number : ℕ) (a b : List ℕ) → IsDrillText number a → IsDrillText number b → a ≡ b }
{}
