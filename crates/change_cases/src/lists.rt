//! Changes as they are kept.
//!
//! `changes BOX BEFORE AFTER` builds the changes of the box's blocks one by one, `changes BOX/CHUNK BEFORE AFTER` those of
//! a chunk of it, and `between` takes them from a list of proposed ones. Letters that are fewer than blocks are repeated,
//! and a block of the letter `-` isn't proposed. Told are how many changes there are, each run by its first position, the
//! place of its first change, its length and its two contents, and in how many stretches the changes are walked by the
//! contents afterwards and before. `afters` and `befores` tell each change of the list by its place.

ghost use Rattle.std.specs.Prelude.{◌≡◌, true, IfOk};
ghost use Rattle.change_set.specs.Changes.{positions, rises};

use crate::boxes::{box_of, tell_position};
use crate::contents::{at_place, contents_of, tell_content};
use crate::places::{stretches, tell_places};
use block_palette::Palette;
use case_lines::{Answer, Memory};
use change_set::{ChangeBuilder, Changes, Proposed, Run};
use edit_terms::{Content, Pos, WorldBox};
use std::alloc::Global;

pub fn answer(alloc: Global, kind: &str, input: &str, answer: &mut Answer) -> Option<()> {
    let changes = match kind {
        "between" => proposed_in(alloc, input)?,
        _ => changes_in(alloc, input)?,
    };
    tell_changes(answer, &changes);
    Some(())
}

pub fn answer_places(alloc: Global, kind: &str, input: &str, answer: &mut Answer) -> Option<()> {
    let changes = changes_in(alloc, input)?;
    match kind {
        "afters" => {
            tell_places(answer, &changes);
            Some(())
        }
        _ => {
            tell_places(answer, &changes.befores());
            Some(())
        }
    }
}

fn tell_changes(answer: &mut Answer, changes: &Changes) {
    answer.number(changes.len());
    let kept = changes.runs();
    for run in kept.runs {
        tell_run(answer, kept.contents, run);
    }
    answer.text("; walked ");
    answer.number(stretches(changes));
    answer.text(" and ");
    answer.number(stretches(&changes.befores()))
}

fn tell_run(answer: &mut Answer, contents: &Palette<Content>, run: &Run) {
    answer.text("; ");
    tell_position(answer, &run.first);
    answer.text(" ");
    answer.number(run.start);
    answer.text("+");
    answer.number(run.length);
    answer.text(" ");
    tell_numbered(answer, contents, run.before);
    answer.text(">");
    tell_numbered(answer, contents, run.after)
}

/// Tells the content of a number.
fn tell_numbered(answer: &mut Answer, contents: &Palette<Content>, number: u32) {
    match contents.entry(number) {
        Some(content) => tell_content(answer, content),
        None => answer.fail(),
    }
}

/// The box with its chunk, and the two rows of letters.
fn parts_of(input: &str) -> Option<(&str, &str, &str)> {
    let (place, letters) = input.split_once(' ')?;
    let (before, after) = letters.split_once(' ')?;
    Some((place, before, after))
}

/// A box, and the chunk of it where one is named.
fn place_of(text: &str) -> Option<(WorldBox, Option<u32>)> {
    match text.split_once('/') {
        None => Some((box_of(text)?, None)),
        Some((area, chunk)) => Some((box_of(area)?, Some(chunk.parse::<u32>().ok()?))),
    }
}

fn changes_in(alloc: Global, input: &str) -> Option<Changes> {
    let (place, before, after) = parts_of(input)?;
    let (area, chunk) = place_of(place)?;
    let before = contents_of(alloc, before)?;
    let after = contents_of(alloc, after)?;
    changed(alloc, &area, chunk, &before, &after).ok()
}

/// The position is of the chunk, or no chunk is asked for.
fn is_wanted(area: &WorldBox, chunk: Option<u32>, at: Pos) -> bool {
    chunk.is_none() || area.chunk_of(at) == chunk
}

/// The changes of the positions of the box, or of a chunk of it, from one row of contents to another.
pub fn changed(
    alloc: Global,
    area: &WorldBox,
    chunk: Option<u32>,
    before: &[Option<Content>],
    after: &[Option<Content>],
) -> Result<Changes, Memory> {
    let mut changes = ChangeBuilder::new(alloc, area);
    for index in 0..area.volume() {
        let Some(at) = area.position(index) else {
            break;
        };
        if !is_wanted(area, chunk, at) {
            continue;
        }
        let Some((old, new)) = both_at(before, after, index) else {
            continue;
        };
        changes.push(&at, old, new)?;
    }
    Ok(changes.finish())
}

/// The contents of both rows at a place.
fn both_at<'a>(
    before: &'a [Option<Content>],
    after: &'a [Option<Content>],
    index: u32,
) -> Option<(&'a Content, &'a Content)> {
    Some((at_place(before, index)?, at_place(after, index)?))
}

fn proposed_in(alloc: Global, input: &str) -> Option<Changes> {
    let (place, before, after) = parts_of(input)?;
    let area = box_of(place)?;
    let before = contents_of(alloc, before)?;
    let after = contents_of(alloc, after)?;
    let cells = proposed(alloc, &area, &before, &after).ok()?;
    Changes::between(alloc, &area, &cells).ok()
}

/// Proposed changes of the positions of the box.
fn proposed(
    alloc: Global,
    area: &WorldBox,
    before: &[Option<Content>],
    after: &[Option<Content>],
) -> Result<Vec<Proposed>, Memory>
    ensures { IfOk result (λ cells. rises area.now (positions cells.items) ≡ true) }
{
    let mut cells = Vec::new(alloc);
    for index in 0..area.volume() {
        let Some(at) = area.position(index) else {
            break;
        };
        let Some((old, new)) = both_at(before, after, index) else {
            continue;
        };
        cells.push(Proposed {
            at,
            before: old.copy(alloc)?,
            after: new.copy(alloc)?,
        })?;
    }
    Ok(cells)
}
