//! Captured cells, all of them by player 3 with step 1, in chunk 5.
//!
//! `part BOX LETTERS` builds the part of the box's blocks, `sorted` makes it of the cells one by one, and both tell each
//! cell by its place. A block of the letter `-` isn't captured. `walked BOX LETTERS` tells of both forms how many cells
//! they have and in how many stretches these are walked, `stretches BOX LETTERS` what each place of either form goes on
//! with, and `find BOX LETTERS POS` the place of a position. `cells POS=LETTER ..` makes a part of cells in any order, and
//! `cells-find POS POS=LETTER ..` tells the place of a position in it.

use crate::boxes::{box_of, position_of};
use crate::contents::{at_place, content_of, contents_of};
use crate::places::{stretches, tell_places, tell_stretches};
use case_lines::{Answer, Memory};
use change_set::{Part, PartBuilder};
use edit_terms::{CellList, Content, Pos, Source, WorldBox};
use std::alloc::Global;

const SOURCE: Source = Source { player: 3, step: 1 };

const CHUNK: u32 = 5;

pub fn answer(alloc: Global, kind: &str, input: &str, answer: &mut Answer) -> Option<()> {
    let (area, letters) = input.split_once(' ')?;
    let area = box_of(area)?;
    let contents = contents_of(alloc, letters)?;
    let part = match kind {
        "part" => built(alloc, &area, &contents).ok()?,
        _ => sorted(alloc, &area, &contents)?,
    };
    tell_part(answer, &part);
    Some(())
}

fn tell_part(answer: &mut Answer, part: &Part) {
    if part.source() != SOURCE || part.chunk() != CHUNK {
        answer.text("of another command or chunk: ");
    }
    tell_places(answer, part)
}

/// The part of the positions of the box that have a content, by runs.
fn built(alloc: Global, area: &WorldBox, contents: &[Option<Content>]) -> Result<Part, Memory> {
    let mut builder = PartBuilder::new(alloc, area, SOURCE, CHUNK);
    for index in 0..area.volume() {
        let Some(at) = area.position(index) else {
            break;
        };
        let Some(content) = at_place(contents, index) else {
            continue;
        };
        builder.push(&at, content)?;
    }
    Ok(builder.finish())
}

/// The same part, cell by cell.
fn sorted(alloc: Global, area: &WorldBox, contents: &[Option<Content>]) -> Option<Part> {
    part_of(listed(alloc, area, contents)?)
}

fn listed(
    alloc: Global,
    area: &WorldBox,
    contents: &[Option<Content>],
) -> Option<Vec<(Pos, Content)>> {
    let mut cells = Vec::new(alloc);
    for index in 0..area.volume() {
        if let Some(content) = at_place(contents, index) {
            let at = area.position(index)?;
            cells.push((at, content.copy(alloc).ok()?)).ok()?;
        }
    }
    Some(cells)
}

fn part_of(cells: Vec<(Pos, Content)>) -> Option<Part> {
    if cells.len() > 1_000_000 {
        return None;
    }
    Some(Part::from_cells(SOURCE, CHUNK, cells))
}

pub fn answer_walked(alloc: Global, input: &str, answer: &mut Answer) -> Option<()> {
    let (area, letters) = input.split_once(' ')?;
    let area = box_of(area)?;
    let contents = contents_of(alloc, letters)?;
    tell_walked(answer, &built(alloc, &area, &contents).ok()?);
    answer.text("; ");
    tell_walked(answer, &sorted(alloc, &area, &contents)?);
    Some(())
}

fn tell_walked(answer: &mut Answer, part: &Part) {
    answer.number(part.len());
    answer.text(" in ");
    answer.number(stretches(part))
}

pub fn answer_stretches(alloc: Global, input: &str, answer: &mut Answer) -> Option<()> {
    let (area, letters) = input.split_once(' ')?;
    let area = box_of(area)?;
    let contents = contents_of(alloc, letters)?;
    tell_stretches(answer, &built(alloc, &area, &contents).ok()?);
    answer.text(" and ");
    tell_stretches(answer, &sorted(alloc, &area, &contents)?);
    Some(())
}

pub fn answer_cells(alloc: Global, kind: &str, input: &str, answer: &mut Answer) -> Option<()> {
    if kind == "cells" {
        tell_part(answer, &part_in(alloc, input)?);
        return Some(());
    }
    let (at, cells) = input.split_once(' ')?;
    let part = part_in(alloc, cells)?;
    tell_found(answer, &part, &position_of(at)?);
    Some(())
}

fn part_in(alloc: Global, words: &str) -> Option<Part> {
    let mut cells = Vec::new(alloc);
    for word in words.split(' ') {
        cells.push(cell_of(alloc, word)?).ok()?;
    }
    part_of(cells)
}

fn cell_of(alloc: Global, word: &str) -> Option<(Pos, Content)> {
    let (at, letter) = word.split_once('=')?;
    let letter = letter.as_bytes().first()?;
    Some((position_of(at)?, content_of(alloc, *letter)?))
}

pub fn answer_find(alloc: Global, input: &str, answer: &mut Answer) -> Option<()> {
    let (area, rest) = input.split_once(' ')?;
    let (letters, at) = rest.split_once(' ')?;
    let area = box_of(area)?;
    let at = position_of(at)?;
    let contents = contents_of(alloc, letters)?;
    tell_found(answer, &built(alloc, &area, &contents).ok()?, &at);
    answer.text(" and ");
    tell_found(answer, &sorted(alloc, &area, &contents)?, &at);
    Some(())
}

fn tell_found(answer: &mut Answer, part: &Part, at: &Pos) {
    match part.find(at) {
        None => answer.text("none"),
        Some(place) => answer.number(place),
    }
}
