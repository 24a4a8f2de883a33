//! Texts of masks.

use crate::bytes::{MOST_BYTES, bytes_of, put};
use crate::faults::put_term_fault;
use crate::properties::put_properties;
use crate::states::put_state;
use block_state::TermFault;
use case_lines::Answer;
use edit_terms::{BlockState, Leaf, Mask, Sign, Term};
use mask_syntax::read_mask;
use std::alloc::Global;

/// `mask TEXT`: the mask of a text, each word in full, or the fault.
pub(crate) fn mask(alloc: Global, input: &str, answer: &mut Answer) -> Option<()> {
    match read(alloc, &bytes_of(alloc, input)?)? {
        Ok(mask) => {
            put_mask(alloc, &mask, answer);
            Some(())
        }
        Err(fault) => {
            put_term_fault(alloc, fault, answer);
            Some(())
        }
    }
}

/// `mask_copy TEXT`: the copy of the copy of a text's mask.
pub(crate) fn copied(alloc: Global, input: &str, answer: &mut Answer) -> Option<()> {
    let mask = mask_of(alloc, input)?.copy(alloc).ok()?;
    put_mask(alloc, &mask.copy(alloc).ok()?, answer);
    Some(())
}

/// `mask_share TEXT`: a text's mask after it was shared twice.
pub(crate) fn shared(alloc: Global, input: &str, answer: &mut Answer) -> Option<()> {
    let terms = mask_of(alloc, input)?.terms.share(alloc).ok()?;
    let terms = terms.share(alloc).ok()?;
    put_mask(alloc, &Mask { terms }, answer);
    Some(())
}

fn mask_of(alloc: Global, text: &str) -> Option<Mask> {
    read(alloc, text.as_bytes())?.ok()
}

/// The mask of bytes, or their fault. None for more bytes than any text has.
fn read(alloc: Global, text: &[u8]) -> Option<Result<Mask, TermFault>> {
    if text.len() > MOST_BYTES {
        return None;
    }
    Some(read_mask(alloc, text))
}

/// Puts a mask's terms with blanks between.
pub(crate) fn put_mask(alloc: Global, mask: &Mask, answer: &mut Answer) {
    let Some((first, rest)) = mask.terms.as_slice().split_first() else {
        answer.fail();
        return;
    };
    put_term(alloc, first, answer);
    for term in rest {
        answer.text(" ");
        put_term(alloc, term, answer);
    }
}

fn put_term(alloc: Global, term: &Term, answer: &mut Answer) {
    for sign in term.signs.as_slice() {
        answer.text(sign_text(*sign));
    }
    put_leaf(alloc, &term.leaf, answer)
}

fn sign_text(sign: Sign) -> &'static str {
    match sign {
        Sign::Not => "!",
        Sign::Below => ">",
        Sign::Above => "<",
    }
}

fn put_leaf(alloc: Global, leaf: &Leaf, answer: &mut Answer) {
    match leaf {
        Leaf::Noise(chance) => {
            answer.text("%");
            answer.number(*chance)
        }
        Leaf::Existing => answer.text("#existing"),
        Leaf::InSelection => answer.text("#selection"),
        Leaf::Has(properties) => {
            answer.text("^");
            put_properties(properties, answer)
        }
        Leaf::OneOf(states) => put_states(alloc, states.as_slice(), answer),
    }
}

/// Puts states with commas between.
fn put_states(alloc: Global, states: &[BlockState], answer: &mut Answer) {
    let Some((first, rest)) = states.split_first() else {
        answer.fail();
        return;
    };
    put_state(alloc, first, answer);
    for state in rest {
        answer.text(",");
        put_state(alloc, state, answer);
    }
}
