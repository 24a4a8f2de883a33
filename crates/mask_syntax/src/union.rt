//! States with commas between.
ghost use Rattle.std.specs.Prelude.{◌≡◌, ◌≤◌, ◌+◌, length, map};
ghost use Rattle.edit_terms.specs.StateText.{comma};
ghost use Rattle.term_text.specs.Pieces.{pieces_at};
ghost use Rattle.term_text.specs.Cursor.{piece_now};
ghost use Rattle.block_state.specs.Read.{Gives};
ghost use Rattle.mask_syntax.specs.Read.{IsMaskFault};
ghost use Rattle.term_text.specs.Verdict.{all_or_first};
ghost use Rattle.mask_syntax.specs.Leaf.{member_reading};

use block_state::TermFault;
use edit_terms::{BlockState, Items};
use std::alloc::Global;
use term_text::{Piece, Pieces, state_at};

/// The states of a text that begins at this place, with commas between.
#[tactic(auto, using(term_text::proofs::Joined::joined_none, term_text::proofs::Joined::joined_more, term_text::proofs::Joined::joined_all))]
pub(crate) fn read_states(
    alloc: Global,
    at: u32,
    text: &[u8],
) -> Result<Items<BlockState>, TermFault>
    requires { at + length text.now ≤ 1048576 }
    ensures { Gives IsMaskFault (λ states. states) (all_or_first (map member_reading (pieces_at comma at text.now))) result }
{
    let mut states = Vec::new(alloc);
    let mut members = Pieces::new(text, at, b',');
    while let Some(member) = members.next() {
        let state = read_member(alloc, &member)?;
        if states.push(state).is_err() {
            return Err(TermFault::Memory);
        }
    }
    Ok(Items::from_vec(states))
}

fn read_member(alloc: Global, member: &Piece) -> Result<BlockState, TermFault>
    ensures { Gives IsMaskFault (λ state. state) (member_reading (piece_now member.now)) result }
{
    match member.bytes {
        [] => Err(TermFault::Empty { at: member.at }),
        [b'#', ..] => Err(TermFault::Unknown { at: member.at }),
        _ => state_at(alloc, member.at, member.bytes),
    }
}
