//! The terms of a mask.
ghost use Rattle.std.specs.Prelude.{◌≡◌, ◌≤◌, ◌+◌, true, Ok, length, IfOk, IfErr};
ghost use Rattle.edit_terms.specs.Mask.{noise_leaves};
ghost use Rattle.run_terms.specs.Limits.{is_leaf_within, is_mask_within};
ghost use Rattle.block_state.specs.Read.{Gives};
ghost use Rattle.mask_syntax.specs.Read.{IsMaskFault};
ghost use Rattle.term_text.specs.Cursor.{piece_now};
ghost use Rattle.mask_syntax.specs.Term.{leaf_piece, noise_of};
ghost use Rattle.mask_syntax.specs.Mask.{judged, terms_reading, term_pieces, mask_of_text};

use crate::term::{leaf_piece, noise_of, read_term};
use block_state::TermFault;
use edit_terms::{Items, Mask, Term};
use std::alloc::Global;
use term_text::{Piece, Pieces};

/// How many noise leaves a mask may have.
const MOST_NOISE: u32 = 4;

/// Reads a mask's text, of at most 1,048,576 bytes.
///
/// Terms stand with spaces between, outside brackets: from a `[` to the next `]` a space or a comma
/// separates nothing. A term is any number of the signs `!`, `>` and `<`, the outermost first, and a leaf:
/// `%` and a number from 0 to 100 in one to three digits, `#existing`, one of `#region`, `#sel` and
/// `#selection`, `^` and properties in brackets, or block states with commas between. At most 4 leaves
/// are noise, which `%` begins.
///
/// An error is the first fault from the left, with its place: `Empty` where a leaf or a state between
/// commas has no text, and at 0 where there is no term; `Number`, then `TooManyNoise` at `%`; `Unknown` for
/// another leaf or state that begins with `#`, and for `^` without `[` behind it; `State` for a state or
/// properties that aren't read, whose fault is never `Memory`. It is never `Weight` nor
/// `TooManyEntries`. `Memory` where an allocation was refused.
pub fn read_mask(alloc: Global, text: &[u8]) -> Result<Mask, TermFault>
    requires { length text.now ≤ 1048576 }
    ensures read { IfOk result (λ mask. mask_of_text text.now ≡ Ok mask) }
    ensures fault { IfErr result (λ fault. IsMaskFault (mask_of_text text.now) fault) }
    ensures within { IfOk result (λ mask. is_mask_within mask ≡ true) }
{
    let terms = read_terms(alloc, text)?;
    if terms.is_empty() {
        return Err(TermFault::Empty { at: 0 });
    }
    Ok(Mask {
        terms: Items::from_vec(terms),
    })
}

/// The terms in their order.
#[tactic(auto, using(term_text::proofs::Joined::joined_none, term_text::proofs::Joined::joined_more, term_text::proofs::Joined::joined_all, crate::proofs::Within::none_within, crate::proofs::Within::one_within, crate::proofs::Within::mask_within))]
fn read_terms(alloc: Global, text: &[u8]) -> Result<Vec<Term>, TermFault>
    requires { length text.now ≤ 1048576 }
    ensures read { Gives IsMaskFault (λ terms. terms.items) (terms_reading (term_pieces text.now)) result }
    ensures within { IfOk result (λ terms. is_mask_within (record { terms = terms.items }) ≡ true) }
{
    let mut terms = Vec::new(alloc);
    let mut noise = 0;
    let mut pieces = Pieces::new(text, 0, b' ');
    while let Some(piece) = pieces.next() {
        if piece.bytes.is_empty() {
            continue;
        }
        let term = read_behind(alloc, noise, &piece)?;
        noise += noise_of(&piece);
        if terms.push(term).is_err() {
            return Err(TermFault::Memory);
        }
    }
    Ok(terms)
}

/// The term of a piece behind so many noise leaves.
fn read_behind(alloc: Global, noise: u32, piece: &Piece) -> Result<Term, TermFault>
    requires few { noise ≤ 4 }
    requires piece { piece.now.at + length piece.now.bytes.now ≤ 1048576 }
    ensures read { Gives IsMaskFault (λ term. term) (judged (record { before = noise; piece = piece_now piece.now })) result }
    ensures within { IfOk result (λ term. is_leaf_within term.leaf ≡ true) }
    ensures noise { IfOk result (λ term. noise_leaves term.leaf ≡ noise_of (piece_now piece.now)) }
    ensures few { IfOk result (λ term. noise + noise_of (piece_now piece.now) ≤ 4) }
{
    let term = read_term(alloc, piece)?;
    if noise + noise_of(piece) > MOST_NOISE {
        return Err(TermFault::TooManyNoise {
            at: leaf_piece(piece).at,
        });
    }
    Ok(term)
}
