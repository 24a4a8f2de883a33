//! Cutting a text at the separators outside brackets.
ghost use Rattle.std.specs.Prelude.{◌≡◌, false, ◌<◌, ◌≤◌, ◌+◌, ◌∷◌, [], length, MatchOption, IfSome, Option, option_map};
ghost use Rattle.term_text.specs.Pieces.{Piece, is_inside_after, ends_piece, pieces_from, pieces_at, place_from};
ghost use Rattle.term_text.specs.Cursor.{piece_now};

use std::marker::Model;

/// Bytes of a text and their place, a number of bytes from the text's start.
#[derive(Clone, Copy)]
pub struct Piece<'a> {
    pub at: u32,
    pub bytes: &'a [u8],
}

/// The pieces of a text that are still to come, from left to right: contracts see their list. A separator
/// inside brackets cuts nothing; inside is what lies between a `[` and the next `]`.
#[derive(Drop)]
pub struct Pieces<'a> {
    separator: u8,
    at: u32,
    rest: Option<&'a [u8]>,
}

impl<'a> Model for Pieces<'a> {
    ghost use Rattle.std.specs.Prelude.{◌≤◌, ◌+◌, List};
    ghost use Rattle.term_text.specs.Pieces.{Piece};
    ghost use Rattle.term_text.specs.Cursor.{pieces_left, room_left};

    ghost Value = { List Piece };

    ghost view = { λ p. pieces_left p.separator p.at p.rest };

    ghost invariant = { λ p. p.at + room_left p.rest ≤ 1048577 };
}

impl<'a> Pieces<'a> {
    /// The pieces of a text that begins at this place of the whole.
    pub fn new(text: &'a [u8], at: u32, separator: u8) -> Pieces<'a>
        requires { at + length text.now ≤ 1048576 }
        ensures { result ≡ pieces_at separator at text.now }
    {
        Pieces {
            separator,
            at,
            rest: Some(text),
        }
    }

    /// The next piece. None where none is left.
    pub fn next(&mut self) -> Option<Piece<'a>>
        ensures cases { MatchOption result (self.old ≡ []) (λ p. self.old ≡ piece_now p ∷ self.new) }
        ensures within { IfSome result (λ p. p.at + length p.bytes.now ≤ 1048576) }
    {
        let text = self.rest?;
        let at = self.at;
        let Some((bytes, rest)) = split_outside(text, self.separator) else {
            self.rest = None;
            return Some(Piece { at, bytes: text });
        };
        self.rest = Some(rest);
        self.at = at + bytes.len() as u32 + 1;
        Some(Piece { at, bytes })
    }
}

/// What stands before and behind the first separator outside brackets. None where there is none.
#[tactic(auto, using(crate::proofs::Cuts::cut_whole))]
fn split_outside(text: &[u8], separator: u8) -> Option<(&[u8], &[u8])>
    ensures cases { MatchOption result (pieces_from false separator text.now ≡ text.now ∷ [])
        (λ cut. pieces_from false separator text.now ≡ cut.0.now ∷ pieces_from false separator cut.1.now) }
    ensures sizes { IfSome result (λ cut. length cut.0.now + 1 + length cut.1.now ≡ length text.now) }
{
    let end = first_outside(text, separator)?;
    Some((&text[..end], &text[end + 1..]))
}

/// The place of the first separator outside brackets. None exactly where there is none.
#[tactic(auto, using(crate::proofs::Cuts::place_start, crate::proofs::Cuts::place_more, crate::proofs::Cuts::place_here, crate::proofs::Cuts::place_none))]
pub fn first_outside(text: &[u8], separator: u8) -> Option<usize>
    ensures first { result ≡ place_from false separator text.now }
    ensures inside { IfSome result (λ at. at < length text.now) }
{
    let mut inside = false;
    for (at, b) in text.iter().enumerate() {
        if ends_piece(inside, separator, *b) {
            return Some(at);
        }
        inside = is_inside_after(inside, *b);
    }
    None
}

fn ends_piece(inside: bool, separator: u8, b: u8) -> bool
    ensures { result ≡ ends_piece inside separator b }
{
    !inside && b == separator
}

fn is_inside_after(inside: bool, b: u8) -> bool
    ensures { result ≡ is_inside_after inside b }
{
    if inside { b != b']' } else { b == b'[' }
}
