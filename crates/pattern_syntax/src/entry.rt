//! One entry of a pattern.
ghost use Rattle.std.specs.Prelude.{◌≡◌, ◌≤◌, ◌+◌, true, length, IfOk};
ghost use Rattle.run_terms.specs.Limits.{is_one_of};
ghost use Rattle.block_state.specs.Read.{Gives};
ghost use Rattle.pattern_syntax.specs.Read.{IsPatternFault};
ghost use Rattle.term_text.specs.Cursor.{piece_now};
ghost use Rattle.pattern_syntax.specs.Pattern.{entry_reading};

use crate::value::read_value;
use block_state::TermFault;
use edit_terms::Entry;
use std::alloc::Global;
use term_text::{Piece, first_outside, natural_between};

/// The entry of a piece: a value, or a weight, `%` and a value.
pub(crate) fn read_entry(alloc: Global, piece: &Piece) -> Result<Entry, TermFault>
    requires { piece.now.at + length piece.now.bytes.now ≤ 1048576 }
    ensures read { Gives IsPatternFault (λ entry. entry) (entry_reading (piece_now piece.now)) result }
    ensures within { IfOk result (λ entry. is_one_of 1 1000000 entry.weight ≡ true) }
{
    let Some(end) = first_outside(piece.bytes, b'%') else {
        let value = read_value(alloc, piece.at, piece.bytes)?;
        return Ok(Entry { weight: 1, value });
    };
    let Some(weight) = natural_between(&piece.bytes[..end], 7, 1, 1_000_000) else {
        return Err(TermFault::Weight { at: piece.at });
    };
    let place = piece.at + end as u32 + 1;
    let value = read_value(alloc, place, &piece.bytes[end + 1..])?;
    Ok(Entry {
        weight: weight as u32,
        value,
    })
}
