//! Where a mask holds.
ghost use Rattle.std.specs.Prelude.{◌≡◌, ◌+◌, ◌≤◌, option_copied};
ghost use Rattle.std.specs.List.{list_all};
ghost use Rattle.edit_terms.specs.Mask.{noise_leaves, term_holds, numbered, mask_holds, is_allowed};
ghost use Rattle.plain_terms.specs.Numbering.{noise_count, mask_noise};
ghost use Rattle.plain_terms.specs.Probes.{answered};

use crate::leaf::{leaf_holds, noise_leaves};
use crate::probe::probe_of;
use crate::scene::Scene;
use edit_terms::{Mask, Pos, Term};

/// True exactly where the mask holds at a position, and everywhere without one. Its noise leaves are
/// numbered from `first` on, in order of appearance.
pub fn is_allowed(mask: Option<&Mask>, first: u32, scene: &Scene, p: &Pos) -> bool
    requires { first + mask_noise (option_copied mask) ≤ 16 }
    ensures { result ≡ is_allowed (option_copied mask.entry) first scene.now p.now }
{
    match mask {
        None => true,
        Some(mask) => terms_hold(mask.terms.as_slice(), first, scene, p),
    }
}

/// True exactly where all these terms hold.
#[tactic(auto, using(crate::proofs::MaskLemmas::terms_more, crate::proofs::MaskLemmas::terms_fail))]
fn terms_hold(terms: &[Term], first: u32, scene: &Scene, p: &Pos) -> bool
    requires { first + noise_count terms.now ≤ 16 }
    ensures { result ≡ list_all (λ n. term_holds n.1 n.0 scene.now p.now) (numbered first terms.now) }
{
    let mut number = first;
    for term in terms {
        if !term_holds(term, number, scene, p) {
            return false;
        }
        number += noise_leaves(&term.leaf);
    }
    true
}

fn term_holds(term: &Term, number: u32, scene: &Scene, p: &Pos) -> bool
    requires { number + noise_leaves term.now.leaf ≤ 16 }
    ensures { result ≡ term_holds term.now number scene.now p.now }
{
    let probe = probe_of(term.signs.as_slice(), p);
    answered(
        probe.is_negated,
        leaf_holds(&term.leaf, number, scene, p, &probe),
    )
}

/// An answer, turned round or not.
fn answered(is_negated: bool, answer: bool) -> bool
    ensures { result ≡ answered is_negated answer }
{
    if is_negated { !answer } else { answer }
}
