//! Laws of masks, each the clause of a function that does nothing.

ghost use Rattle.std.specs.Prelude.{◌≡◌, ℕ, false};
ghost use Rattle.edit_terms.specs.declared.pos.Pos.{Pos};
ghost use Rattle.edit_terms.specs.declared.mask.Term.{Term};
ghost use Rattle.edit_terms.specs.declared.mask.Leaf.TheVariants.{Noise};
ghost use Rattle.edit_terms.specs.Area.{holds};
ghost use Rattle.edit_terms.specs.Mask.{Scene, negated, term_holds, leaf_holds};

/// A mask term negated twice is the term.
#[tactic(auto, using(crate::proofs::MaskLemmas::negated_twice))]
pub fn double_negation()
    ensures { (t : Term) (number : ℕ) (s : Scene) (p : Pos) →
        term_holds (negated (negated t)) number s p ≡ term_holds t number s p }
{}

/// Noise of 0 in 100 holds nowhere, and of 100 in 100 exactly in the box.
#[tactic(auto, using(crate::proofs::MaskLemmas::noise_never, crate::proofs::MaskLemmas::noise_always))]
pub fn noise_of_none_and_all()
    ensures none { (number : ℕ) (s : Scene) (p : Pos) → leaf_holds (Noise 0) number s p ≡ false }
    ensures all { (number : ℕ) (s : Scene) (p : Pos) →
        leaf_holds (Noise 100) number s p ≡ holds s.world.area p }
{}
