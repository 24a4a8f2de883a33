//! The leaf behind a term's signs.
ghost use Rattle.std.specs.Prelude.{◌≡◌, ◌≤◌, ◌+◌, true, if◌then◌else◌, length, IfOk};
ghost use Rattle.edit_terms.specs.Mask.{noise_leaves};
ghost use Rattle.run_terms.specs.Limits.{is_leaf_within};
ghost use Rattle.block_state.specs.Read.{Gives};
ghost use Rattle.mask_syntax.specs.Read.{IsMaskFault};
ghost use Rattle.mask_syntax.specs.Leaf.{noise_reading, word_reading, has_reading, union_reading, leaf_reading, is_selection_word};
ghost use Rattle.mask_syntax.specs.Term.{begins_noise};

use crate::union::read_states;
use block_state::TermFault;
use edit_terms::Leaf;
use std::alloc::Global;
use term_text::{natural_between, properties_at};

/// The leaf of a text that begins at this place.
pub(crate) fn read_leaf(alloc: Global, at: u32, text: &[u8]) -> Result<Leaf, TermFault>
    requires { at + length text.now ≤ 1048576 }
    ensures read { Gives IsMaskFault (λ leaf. leaf) (leaf_reading at text.now) result }
    ensures within { IfOk result (λ leaf. is_leaf_within leaf ≡ true) }
    ensures noise { IfOk result (λ leaf. noise_leaves leaf ≡ (if begins_noise text.now then 1 else 0)) }
{
    match text {
        [] => Err(TermFault::Empty { at }),
        [b'%', digits @ ..] => read_noise(at, digits),
        [b'#', word @ ..] => read_word(at, word),
        [b'^', rest @ ..] => read_has(alloc, at, rest),
        _ => read_union(alloc, at, text),
    }
}

/// A share of noise, whose number these digits are.
fn read_noise(at: u32, digits: &[u8]) -> Result<Leaf, TermFault>
    ensures read { Gives IsMaskFault (λ leaf. leaf) (noise_reading at digits.now) result }
    ensures within { IfOk result (λ leaf. is_leaf_within leaf ≡ true) }
    ensures noise { IfOk result (λ leaf. noise_leaves leaf ≡ 1) }
{
    match natural_between(digits, 3, 0, 100) {
        Some(chance) => Ok(Leaf::Noise(chance as u8)),
        None => Err(TermFault::Number { at }),
    }
}

/// The leaf of a word behind `#`.
fn read_word(at: u32, word: &[u8]) -> Result<Leaf, TermFault>
    ensures read { Gives IsMaskFault (λ leaf. leaf) (word_reading at word.now) result }
    ensures within { IfOk result (λ leaf. is_leaf_within leaf ≡ true) }
    ensures noise { IfOk result (λ leaf. noise_leaves leaf ≡ 0) }
{
    if word == b"existing".as_slice() {
        return Ok(Leaf::Existing);
    }
    if is_selection_word(word) {
        return Ok(Leaf::InSelection);
    }
    Err(TermFault::Unknown { at })
}

fn is_selection_word(word: &[u8]) -> bool
    ensures { result ≡ is_selection_word word.now }
{
    word == b"region".as_slice() || word == b"sel".as_slice() || word == b"selection".as_slice()
}

/// Properties in brackets, which stand behind `^`.
fn read_has(alloc: Global, at: u32, text: &[u8]) -> Result<Leaf, TermFault>
    ensures read { Gives IsMaskFault (λ leaf. leaf) (has_reading at text.now) result }
    ensures within { IfOk result (λ leaf. is_leaf_within leaf ≡ true) }
    ensures noise { IfOk result (λ leaf. noise_leaves leaf ≡ 0) }
{
    let [b'[', rest @ ..] = text else {
        return Err(TermFault::Unknown { at });
    };
    let properties = properties_at(alloc, at, rest)?;
    Ok(Leaf::Has(properties))
}

/// States with commas between.
fn read_union(alloc: Global, at: u32, text: &[u8]) -> Result<Leaf, TermFault>
    requires { at + length text.now ≤ 1048576 }
    ensures read { Gives IsMaskFault (λ leaf. leaf) (union_reading at text.now) result }
    ensures within { IfOk result (λ leaf. is_leaf_within leaf ≡ true) }
    ensures noise { IfOk result (λ leaf. noise_leaves leaf ≡ 0) }
{
    let states = read_states(alloc, at, text)?;
    Ok(Leaf::OneOf(states))
}
