//! Words that are masks, patterns or block states.
ghost use Rattle.std.specs.Prelude.{◌≡◌, ◌≤◌, true, length, IfOk};
ghost use Rattle.run_terms.specs.Limits.{is_mask_within, is_pattern_within};
ghost use Rattle.command_syntax.specs.Term.{mask_of, pattern_of, state_of, existing};
ghost use Rattle.command_syntax.specs.Stop.{stop_of};
ghost use Rattle.block_state.specs.Read.{Gives};
ghost use Rattle.command_syntax.specs.Read.{IsStop};

use crate::fault::LineFault;
use crate::stop::Stop;
use block_state::TermFault;
use edit_terms::{BlockState, Items, Leaf, Mask, Pattern, Term};
use mask_syntax::read_mask;
use memory::Memory;
use pattern_syntax::read_pattern;
use std::alloc::Global;
use term_text::state_at;

/// The mask of a word.
#[tactic(auto, using(crate::proofs::Terms::mask_stops))]
pub(crate) fn mask_of(alloc: Global, word: &[u8]) -> Result<Mask, Stop>
    requires { length word.now ≤ 1048576 }
    ensures read { Gives IsStop (λ mask. mask) (mask_of word.now) result }
    ensures within { IfOk result (λ mask. is_mask_within mask ≡ true) }
{
    match read_mask(alloc, word) {
        Ok(mask) => Ok(mask),
        Err(fault) => Err(stop_of(fault)),
    }
}

/// The pattern of a word.
#[tactic(auto, using(crate::proofs::Terms::pattern_stops))]
pub(crate) fn pattern_of(alloc: Global, word: &[u8]) -> Result<Pattern, Stop>
    requires { length word.now ≤ 1048576 }
    ensures read { Gives IsStop (λ pattern. pattern) (pattern_of word.now) result }
    ensures within { IfOk result (λ pattern. is_pattern_within pattern ≡ true) }
{
    match read_pattern(alloc, word) {
        Ok(pattern) => Ok(pattern),
        Err(fault) => Err(stop_of(fault)),
    }
}

/// The block state of a word.
#[tactic(auto, using(crate::proofs::Terms::state_stops))]
pub(crate) fn state_of(alloc: Global, word: &[u8]) -> Result<BlockState, Stop>
    ensures { Gives IsStop (λ state. state) (state_of word.now) result }
{
    match state_at(alloc, 0, word) {
        Ok(state) => Ok(state),
        Err(fault) => Err(stop_of(fault)),
    }
}

/// The mask `#existing`.
pub(crate) fn existing(alloc: Global) -> Result<Mask, Memory>
    ensures { IfOk result (λ mask. mask ≡ existing) }
{
    let mut terms = Vec::with_capacity(alloc, 1)?;
    terms.push(Term {
        signs: Items::from_vec(Vec::new(alloc)),
        leaf: Leaf::Existing,
    })?;
    Ok(Mask {
        terms: Items::from_vec(terms),
    })
}

fn stop_of(fault: TermFault) -> Stop
    ensures { result ≡ stop_of fault }
{
    match fault {
        TermFault::Memory => Stop::Memory,
        _ => Stop::Fault(LineFault::Term(fault)),
    }
}
