//! Boxes, their blocks and their chunks.

use crate::words::{area_of, box_of, pos_of, put, put_box, put_maybe, put_pos};
use case_lines::Answer;
use edit_terms::{Pos, WorldBox};
use region_shapes::chunks_of;
use std::alloc::Global;

/// `box BOX`: a box, how many blocks it has and how many chunks it touches, or none where no world has such a box.
pub(crate) fn made(input: &str, answer: &mut Answer) -> Option<()> {
    let Some(area) = box_of(input)? else {
        answer.text("none");
        return Some(());
    };
    put_box(&area, answer);
    answer.text(" blocks ");
    answer.number(area.volume());
    answer.text(" chunks ");
    answer.number(area.chunks());
    Some(())
}

/// `index BOX POSITION`: the place of a block in its box's list, from which the block is found again; none outside.
pub(crate) fn index(input: &str, answer: &mut Answer) -> Option<()> {
    let (word, rest) = input.split_once(' ')?;
    let area = area_of(word)?;
    let p = pos_of(rest)?;
    let index = area.index_of(p);
    if index.is_some() != area.holds(p) || !is_found_again(&area, index, &p) {
        return None;
    }
    put_maybe(index, answer);
    Some(())
}

/// Whether the block of an index is this one; or there is no index.
fn is_found_again(area: &WorldBox, index: Option<u32>, p: &Pos) -> bool {
    match index {
        Some(index) => area.position(index) == Some(*p),
        None => true,
    }
}

/// `block BOX INDEX`: the block at a place of a box's list, or none.
pub(crate) fn block(input: &str, answer: &mut Answer) -> Option<()> {
    let (word, rest) = input.split_once(' ')?;
    let area = area_of(word)?;
    match area.position(rest.parse().ok()?) {
        Some(p) => {
            put_pos(&p, answer);
            Some(())
        }
        None => {
            answer.text("none");
            Some(())
        }
    }
}

/// `chunk BOX POSITION`: the index of a block's chunk; none outside.
pub(crate) fn chunk(input: &str, answer: &mut Answer) -> Option<()> {
    let (word, rest) = input.split_once(' ')?;
    let area = area_of(word)?;
    put_maybe(area.chunk_of(pos_of(rest)?), answer);
    Some(())
}

/// `chunks BOX BOX`: the indexes of the chunks of a box that another touches, or none where that is no part of it.
pub(crate) fn chunks(alloc: Global, input: &str, answer: &mut Answer) -> Option<()> {
    let (word, rest) = input.split_once(' ')?;
    let area = area_of(word)?;
    let part = area_of(rest)?;
    if !part.is_part_of(&area) {
        answer.text("no part");
        return Some(());
    }
    let chunks = chunks_of(alloc, &part, &area).ok()?;
    put_numbers(&chunks, answer);
    Some(())
}

/// Puts numbers with blanks between.
fn put_numbers(numbers: &[u32], answer: &mut Answer) {
    let Some((first, rest)) = numbers.split_first() else {
        answer.fail();
        return;
    };
    answer.number(*first);
    for number in rest {
        answer.text(" ");
        answer.number(*number);
    }
}
