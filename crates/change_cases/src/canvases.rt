//! A world whose blocks are kept by number.
//!
//! `canvas BOX LETTERS` tells the numbers of the blocks and their letters, as the world shows them and as the grid has them
//! that it is made again. `canvas-at POS BOX LETTERS` tells the letter at a position. `write BOX LETTERS INDEX=LETTER ..`
//! gives some blocks another content first, more than once where ` / ` stands between, and tells the changes by their place
//! and the numbers before and after.

ghost use Rattle.std.specs.Prelude.{◌<◌, All, IfSome, OnSome};
ghost use Rattle.edit_terms.specs.Area.{volume};

use crate::boxes::{box_of, position_of, tell_between};
use crate::contents::{content_of, entity_of, state_of, tell_content, tell_entity, tell_letter};
use case_lines::Answer;
use edit_terms::{Content, Entities, Grid, Pos, WorldBox};
use std::alloc::Global;
use world_canvas::{Canvas, CellChange, Proposals};

pub fn answer(alloc: Global, kind: &str, input: &str, answer: &mut Answer) -> Option<()> {
    let (first, rest) = input.split_once(' ')?;
    match kind {
        "canvas" => tell_canvas(alloc, answer, canvas_of(alloc, first, rest)?),
        "canvas-at" => {
            let (area, letters) = rest.split_once(' ')?;
            tell_at(
                answer,
                &canvas_of(alloc, area, letters)?,
                &position_of(first)?,
            );
            Some(())
        }
        _ => {
            let (letters, writes) = rest.split_once(' ')?;
            answer_writes(alloc, canvas_of(alloc, first, letters)?, writes, answer)
        }
    }
}

fn canvas_of(alloc: Global, area: &str, letters: &str) -> Option<Canvas> {
    let grid = grid_of(alloc, box_of(area)?, letters.as_bytes())?;
    Canvas::of(alloc, &grid).ok()
}

/// Tells what stands at a position, by the numbers that the blocks have now.
fn tell_at(answer: &mut Answer, canvas: &Canvas, at: &Pos) {
    canvas.well_formed();
    match canvas.earlier(canvas.cells()).at(at) {
        None => answer.text("outside"),
        Some(content) => tell_content(answer, content),
    }
}

/// The grid of these letters. Each block has a state of its own in the list of states.
fn grid_of(alloc: Global, area: WorldBox, letters: &[u8]) -> Option<Grid> {
    let mut kinds = Vec::new(alloc);
    let mut cells = Vec::new(alloc);
    for (index, letter) in letters.iter().enumerate() {
        kinds.push(state_of(alloc, *letter)?).ok()?;
        cells.push(u32::try_from(index).ok()?).ok()?;
    }
    let entities = entities_of(alloc, &area, letters)?;
    Grid::from_parts(alloc, area, kinds, cells)?.with_entities(entities)
}

fn entities_of(alloc: Global, area: &WorldBox, letters: &[u8]) -> Option<Entities> {
    let mut entities = Vec::new(alloc);
    for (index, letter) in letters.iter().enumerate() {
        if let Some(entity) = entity_of(alloc, *letter)? {
            let at = area.position(u32::try_from(index).ok()?)?;
            entities.push((at, entity)).ok()?;
        }
    }
    Some(Entities::from_vec(entities))
}

fn answer_writes(alloc: Global, canvas: Canvas, writes: &str, answer: &mut Answer) -> Option<()> {
    let mut canvas = canvas;
    for words in writes.split(" / ") {
        write_words(alloc, &mut canvas, words, answer)?;
    }
    answer.text("; ");
    tell_canvas(alloc, answer, canvas)
}

fn write_words(alloc: Global, canvas: &mut Canvas, words: &str, answer: &mut Answer) -> Option<()> {
    let area = *canvas.area();
    let proposals = proposals_of(alloc, &area, words)?;
    let changes = canvas.write(alloc, &proposals).ok()?;
    for change in &changes {
        tell_change(answer, change);
    }
    Some(())
}

/// Proposals at places of the box.
fn proposals_of(alloc: Global, area: &WorldBox, words: &str) -> Option<Proposals>
    ensures { IfSome result (λ ps. All (λ p. p.index < volume area.now) ps) }
{
    let mut proposals = Proposals::none(alloc);
    for word in words.split(' ') {
        let (index, letter) = place_of(word)?;
        if index >= area.volume() {
            return None;
        }
        propose(&mut proposals, area, index, content_of(alloc, letter)?)?;
    }
    Some(proposals)
}

/// Proposes a content at a place of the box.
fn propose(proposals: &mut Proposals, area: &WorldBox, index: u32, content: Content) -> Option<()>
    requires within { index < volume area.now }
    ensures kept { OnSome result (All (λ p. p.index < volume area.now) proposals.old → All (λ p. p.index < volume area.now) proposals.new) }
{
    match proposals.push(index, content) {
        Ok(()) => Some(()),
        Err(_) => None,
    }
}

fn place_of(word: &str) -> Option<(u32, u8)> {
    let (index, letter) = word.split_once('=')?;
    Some((index.parse::<u32>().ok()?, *letter.as_bytes().first()?))
}

fn tell_change(answer: &mut Answer, change: &CellChange) {
    tell_between(answer, " ");
    answer.number(change.index);
    answer.text(":");
    answer.number(change.before);
    answer.text(">");
    answer.number(change.after)
}

/// Tells a canvas, and the grid that it becomes.
fn tell_canvas(alloc: Global, answer: &mut Answer, canvas: Canvas) -> Option<()> {
    tell_numbers(answer, canvas.cells());
    tell_blocks(answer, &canvas);
    answer.text(" / ");
    let Some(grid) = canvas.into_grid(alloc).ok() else {
        answer.fail();
        return Some(());
    };
    tell_numbers(answer, grid.cells());
    tell_grid(answer, &grid)
}

fn tell_numbers(answer: &mut Answer, numbers: &[u32]) {
    for number in numbers {
        answer.number(*number);
        answer.text(" ");
    }
}

fn tell_blocks(answer: &mut Answer, canvas: &Canvas) {
    for index in 0..canvas.area().volume() {
        let Some(at) = canvas.area().position(index) else {
            answer.fail();
            return;
        };
        match canvas.blocks().at(&at) {
            Some(content) => tell_content(answer, content),
            None => answer.fail(),
        }
    }
}

fn tell_grid(answer: &mut Answer, grid: &Grid) -> Option<()> {
    for index in 0..grid.area().volume() {
        tell_block(answer, grid, grid.area().position(index)?);
    }
    Some(())
}

fn tell_block(answer: &mut Answer, grid: &Grid, at: Pos) {
    match grid.entity(at) {
        Some(entity) => tell_entity(answer, entity),
        None => match grid.get(at) {
            Some(state) => tell_letter(answer, state, None),
            None => answer.fail(),
        },
    }
}
