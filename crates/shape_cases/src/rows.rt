//! Regions by rows.

use crate::regions::region_of;
use crate::words::{area_of, put, put_pos};
use case_lines::Answer;
use edit_terms::{Pos, Region, WorldBox};
use region_shapes::{Span, contains, rows};
use std::alloc::Global;

/// `count BOX REGION`: how many blocks of a box the spans of a region have.
pub(crate) fn count(input: &str, answer: &mut Answer) -> Option<()> {
    let (word, rest) = input.split_once(' ')?;
    let area = area_of(word)?;
    answer.number(count_of(&region_of(rest)?, &area));
    Some(())
}

fn count_of(region: &Region, area: &WorldBox) -> u64 {
    let mut total: u64 = 0;
    for span in rows(region, area) {
        total = total.saturating_add(u64::from(span.count));
    }
    total
}

/// `rows BOX REGION`: the spans of a region in a box, each as its least block, `+` and its count, with `;` behind it.
pub(crate) fn rows_of(input: &str, answer: &mut Answer) -> Option<()> {
    let (word, rest) = input.split_once(' ')?;
    let area = area_of(word)?;
    for span in rows(&region_of(rest)?, &area) {
        put_span(&span, answer);
    }
    answer.text("end");
    Some(())
}

fn put_span(span: &Span, answer: &mut Answer) {
    put_pos(&span.least, answer);
    answer.text("+");
    answer.number(span.count);
    answer.text(";")
}

/// `agree BOX REGION`: how many blocks of a box are of a region, where the spans have the same blocks in the same order.
pub(crate) fn agree(alloc: Global, input: &str, answer: &mut Answer) -> Option<()> {
    let (word, rest) = input.split_once(' ')?;
    let area = area_of(word)?;
    let region = region_of(rest)?;
    let told = told_of(alloc, &region, &area)?;
    if told.as_slice() != listed_of(alloc, &region, &area)?.as_slice() {
        answer.text("another list");
        return Some(());
    }
    answer.number(told.len());
    Some(())
}

/// The indexes of the blocks that `contains` tells.
fn told_of(alloc: Global, region: &Region, area: &WorldBox) -> Option<Vec<u32>> {
    let mut told = Vec::new(alloc);
    for index in 0..area.volume() {
        if contains(region, &area.position(index)?) {
            told.push(index).ok()?;
        }
    }
    Some(told)
}

/// The indexes of the blocks that the spans have.
fn listed_of(alloc: Global, region: &Region, area: &WorldBox) -> Option<Vec<u32>> {
    let mut listed = Vec::new(alloc);
    for span in rows(region, area) {
        put_indexes(&span, area, &mut listed)?;
    }
    Some(listed)
}

fn put_indexes(span: &Span, area: &WorldBox, listed: &mut Vec<u32>) -> Option<()> {
    for further in 0..span.count {
        listed
            .push(area.index_of(moved(&span.least, further)?)?)
            .ok()?;
    }
    Some(())
}

/// So many blocks to the east.
fn moved(least: &Pos, further: u32) -> Option<Pos> {
    Some(Pos {
        x: least.x.checked_add_unsigned(further)?,
        y: least.y,
        z: least.z,
    })
}
