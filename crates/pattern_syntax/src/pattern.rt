//! The entries of a pattern.
ghost use Rattle.std.specs.Prelude.{◌≡◌, ◌≤◌, ◌<◌, ◌+◌, true, [], ◌∷◌, ◌++◌, Ok, OnOk, length, IfOk, IfErr};
ghost use Rattle.block_state.specs.declared.term_fault.TermFault.TheVariants.{Memory};
ghost use Rattle.run_terms.specs.Limits.{is_one_of, is_pattern_within};
ghost use Rattle.block_state.specs.Read.{Gives};
ghost use Rattle.pattern_syntax.specs.Read.{IsPatternFault};
ghost use Rattle.term_text.specs.Cursor.{piece_now};
ghost use Rattle.pattern_syntax.specs.Pattern.{judged, entries_reading, pattern_of_text};
ghost use Rattle.term_text.specs.Pieces.{pieces_at};
ghost use Rattle.edit_terms.specs.StateText.{comma};

use crate::entry::read_entry;
use block_state::TermFault;
use edit_terms::{Entry, Items, Pattern};
use std::alloc::Global;
use term_text::{Piece, Pieces};

/// How many entries a pattern may have.
const MOST_ENTRIES: u32 = 32;

/// Reads a pattern's text, of at most 1,048,576 bytes.
///
/// 1 to 32 entries stand with commas between, outside brackets: from a `[` to the next `]` a comma or a
/// `%` separates nothing. An entry is a value, which has weight 1, or a weight, `%` and a value; a weight is
/// one to seven digits that stand for 1 to 1,000,000. A value is a block state, `^` and a block's name,
/// properties in brackets or both, `#clipboard` or `#copy`.
///
/// An error is the first fault from the left, with its place. In an entry `TooManyEntries` comes first, at
/// the entry's start; then `Weight` there, where what stands before the first `%` is none; then, at the
/// value's first byte, `Empty` where it has no text, `Unknown` where it is another that begins with `#`, or
/// `^` alone, or `State`, whose fault is never `Memory`. It is never `Number` nor `TooManyNoise`. `Memory`
/// where an allocation was refused.
pub fn read_pattern(alloc: Global, text: &[u8]) -> Result<Pattern, TermFault>
    requires { length text.now ≤ 1048576 }
    ensures read { IfOk result (λ pattern. pattern_of_text text.now ≡ Ok pattern) }
    ensures fault { IfErr result (λ fault. IsPatternFault (pattern_of_text text.now) fault) }
    ensures within { IfOk result (λ pattern. is_pattern_within pattern ≡ true) }
{
    let entries = read_entries(alloc, text)?;
    Ok(Pattern {
        entries: Items::from_vec(entries),
    })
}

/// The entries in their order.
#[tactic(auto, using(term_text::proofs::Joined::joined_none, term_text::proofs::Joined::joined_all, crate::proofs::Within::none_within, crate::proofs::Within::one_within, crate::proofs::Within::pattern_within))]
fn read_entries(alloc: Global, text: &[u8]) -> Result<Vec<Entry>, TermFault>
    requires { length text.now ≤ 1048576 }
    ensures read { Gives IsPatternFault (λ entries. entries.items) (entries_reading (pieces_at comma 0 text.now)) result }
    ensures within { IfOk result (λ entries. is_pattern_within (record { entries = entries.items }) ≡ true) }
{
    let mut entries = Vec::new(alloc);
    let mut count = 0;
    let mut pieces = Pieces::new(text, 0, b',');
    while let Some(piece) = pieces.next() {
        let entry = read_behind(alloc, count, &piece)?;
        count += 1;
        put_last(&mut entries, entry)?;
    }
    Ok(entries)
}

/// Puts an entry behind the others. `Memory` where there is no room for it; it is dropped then.
fn put_last(entries: &mut Vec<Entry>, entry: Entry) -> Result<(), TermFault>
    ensures put { OnOk result (entries.new.items ≡ entries.old.items ++ entry ∷ []) }
    ensures err { IfErr result (λ fault. fault ≡ Memory) }
{
    match entries.push(entry) {
        Ok(()) => Ok(()),
        Err(_) => Err(TermFault::Memory),
    }
}

/// The entry of a piece behind so many others.
fn read_behind(alloc: Global, before: u32, piece: &Piece) -> Result<Entry, TermFault>
    requires { piece.now.at + length piece.now.bytes.now ≤ 1048576 }
    ensures read { Gives IsPatternFault (λ entry. entry) (judged (before, piece_now piece.now)) result }
    ensures within { IfOk result (λ entry. is_one_of 1 1000000 entry.weight ≡ true) }
    ensures few { IfOk result (λ _. before < 32) }
{
    if before >= MOST_ENTRIES {
        return Err(TermFault::TooManyEntries { at: piece.at });
    }
    read_entry(alloc, piece)
}
