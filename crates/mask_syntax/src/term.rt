//! One term of a mask.
ghost use Rattle.std.specs.Prelude.{◌≡◌, ◌≤◌, ◌+◌, true, length, IfOk};
ghost use Rattle.edit_terms.specs.Mask.{noise_leaves};
ghost use Rattle.run_terms.specs.Limits.{is_leaf_within};
ghost use Rattle.block_state.specs.Read.{Gives};
ghost use Rattle.mask_syntax.specs.Read.{IsMaskFault};
ghost use Rattle.term_text.specs.Cursor.{piece_now};
ghost use Rattle.mask_syntax.specs.Term.{begins_noise, leaf_piece, term_reading, noise_of};

use crate::leaf::read_leaf;
use crate::signs::{sign_count, signs_of};
use block_state::TermFault;
use edit_terms::Term;
use std::alloc::Global;
use term_text::Piece;

/// The term of a piece: its signs and its leaf.
pub(crate) fn read_term(alloc: Global, piece: &Piece) -> Result<Term, TermFault>
    requires { piece.now.at + length piece.now.bytes.now ≤ 1048576 }
    ensures read { Gives IsMaskFault (λ term. term) (term_reading (piece_now piece.now)) result }
    ensures within { IfOk result (λ term. is_leaf_within term.leaf ≡ true) }
    ensures noise { IfOk result (λ term. noise_leaves term.leaf ≡ noise_of (piece_now piece.now)) }
{
    let Ok(signs) = signs_of(alloc, piece.bytes) else {
        return Err(TermFault::Memory);
    };
    let behind = leaf_piece(piece);
    let leaf = read_leaf(alloc, behind.at, behind.bytes)?;
    Ok(Term { signs, leaf })
}

/// What stands behind the signs.
pub(crate) fn leaf_piece<'a>(piece: &Piece<'a>) -> Piece<'a>
    requires { piece.now.at + length piece.now.bytes.now ≤ 1048576 }
    ensures piece { piece_now result ≡ leaf_piece (piece_now piece.now) }
    ensures within { result.at + length result.bytes.now ≤ 1048576 }
{
    let count = sign_count(piece.bytes);
    Piece {
        at: piece.at + count as u32,
        bytes: &piece.bytes[count..],
    }
}

/// How many noise leaves a piece has: one, where its leaf begins with `%`.
pub(crate) fn noise_of(piece: &Piece) -> u32
    requires { piece.now.at + length piece.now.bytes.now ≤ 1048576 }
    ensures { result ≡ noise_of (piece_now piece.now) }
{
    if begins_noise(leaf_piece(piece).bytes) {
        1
    } else {
        0
    }
}

fn begins_noise(text: &[u8]) -> bool
    ensures { result ≡ begins_noise text.now }
{
    matches!(text, [b'%', ..])
}
