//! Pieces of texts, and properties as parts.

use crate::bytes::put;
use crate::faults::put_state_fault;
use crate::properties::put_properties;
use block_state::read_properties;
use case_lines::Answer;
use std::alloc::Global;
use term_text::{Piece, Pieces, first_outside};

/// `pieces SEPARATOR AT TEXT`: the pieces of a text that begins at this place of the whole, each with its place, and a
/// `;` behind it.
pub(crate) fn pieces(input: &str, answer: &mut Answer) -> Option<()> {
    let (separator, rest) = input.split_once(' ')?;
    let (at, text) = rest.split_once(' ')?;
    put_pieces(
        text.as_bytes(),
        at.parse().ok()?,
        separator_of(separator)?,
        answer,
    );
    Some(())
}

fn put_pieces(text: &[u8], at: u32, separator: u8, answer: &mut Answer) {
    if text.len() > 1000 || at > 1000 {
        answer.fail();
        return;
    }
    let mut pieces = Pieces::new(text, at, separator);
    for _ in 0..1000 {
        let Some(piece) = pieces.next() else {
            return;
        };
        put_piece(&piece, answer);
    }
    answer.fail()
}

fn put_piece(piece: &Piece, answer: &mut Answer) {
    answer.number(piece.at);
    answer.text(" ");
    answer.bytes(piece.bytes);
    answer.text(";")
}

/// `outside SEPARATOR TEXT`: the place of the first separator outside brackets.
pub(crate) fn outside(input: &str, answer: &mut Answer) -> Option<()> {
    let (separator, text) = input.split_once(' ')?;
    match first_outside(text.as_bytes(), separator_of(separator)?) {
        Some(at) => {
            answer.number(at);
            Some(())
        }
        None => {
            answer.text("none");
            Some(())
        }
    }
}

fn separator_of(word: &str) -> Option<u8> {
    match word {
        "comma" => Some(b','),
        "blank" => Some(b' '),
        "percent" => Some(b'%'),
        _ => None,
    }
}

/// `behind TEXT`: the properties of a text behind an opening bracket, or the fault.
pub(crate) fn behind(alloc: Global, input: &str, answer: &mut Answer) {
    match read_properties(alloc, input.as_bytes()) {
        Ok(properties) => put_properties(&properties, answer),
        Err(fault) => put_state_fault(alloc, fault, answer),
    }
}
