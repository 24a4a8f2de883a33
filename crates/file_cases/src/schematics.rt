//! `schematic WORDS` and `file WORDS`: a world's file is read, and the world is told, or the file's first fault.
//!
//! The words of `schematic` are the tags of a compound `Schematic`, those of `file` the whole file. A world is told by
//! its sizes, its least corner and its states in index order, and behind them each entity by its position and its tags,
//! with `Pos` between those that stand before and after it. `cell X,Y,Z WORDS` tells the state at that position alone.

use crate::faults::tell_world;
use crate::show::show_row;
use crate::tags::TOO_MANY;
use crate::words::{put_words, spell};
use block_state::write_state;
use case_lines::Answer;
use edit_terms::{Entity, Grid, Pos, WorldBox};
use nbt_tags::read_row;
use sponge_schematic::read_world;
use std::alloc::Global;

pub fn answer(alloc: Global, kind: &str, input: &str, answer: &mut Answer) -> Option<()> {
    let bytes = match kind {
        "file" => spell(alloc, input)?,
        _ => framed(alloc, input)?,
    };
    answer_read(alloc, &bytes, answer)
}

/// The state at a position of the world that the tags of these words give.
pub fn answer_cell(alloc: Global, input: &str, answer: &mut Answer) -> Option<()> {
    let (position, words) = input.split_once(' ')?;
    let p = position_of(position)?;
    let bytes = framed(alloc, words)?;
    if bytes.len() > TOO_MANY {
        return None;
    }
    let world = read_world(alloc, &bytes).ok()?;
    match world.grid.get(p) {
        Some(state) => {
            answer.bytes(&write_state(alloc, state).ok()?);
            Some(())
        }
        None => {
            answer.text("outside");
            Some(())
        }
    }
}

fn position_of(text: &str) -> Option<Pos> {
    let (x, rest) = text.split_once(',')?;
    let (y, z) = rest.split_once(',')?;
    Some(Pos {
        x: x.parse::<i32>().ok()?,
        y: y.parse::<i32>().ok()?,
        z: z.parse::<i32>().ok()?,
    })
}

/// The file whose root has the tags of these words.
pub fn framed(alloc: Global, words: &str) -> Option<Vec<u8>> {
    let mut bytes = spell(alloc, "compound:Schematic{")?;
    put_words(alloc, &mut bytes, words)?;
    bytes.push(0).ok()?;
    Some(bytes)
}

fn answer_read(alloc: Global, bytes: &[u8], answer: &mut Answer) -> Option<()> {
    if bytes.len() > TOO_MANY {
        return None;
    }
    match read_world(alloc, bytes) {
        Ok(world) => {
            tell_grid(alloc, answer, &world.grid);
            Some(())
        }
        Err(fault) => tell_world(answer, fault),
    }
}

fn tell_grid(alloc: Global, answer: &mut Answer, grid: &Grid) {
    tell_box(answer, grid.area());
    for index in 0..grid.area().volume() {
        tell_state(alloc, answer, grid, index);
    }
    for (at, entity) in grid.entities() {
        tell_entity(alloc, answer, at, entity);
    }
}

fn tell_box(answer: &mut Answer, area: &WorldBox) {
    answer.number(area.width());
    answer.text("x");
    answer.number(area.height());
    answer.text("x");
    answer.number(area.length());
    answer.text(" at ");
    tell_position(answer, &area.least())
}

fn tell_position(answer: &mut Answer, p: &Pos) {
    answer.number(p.x);
    answer.text(",");
    answer.number(p.y);
    answer.text(",");
    answer.number(p.z)
}

fn tell_state(alloc: Global, answer: &mut Answer, grid: &Grid, index: u32) {
    let Some(state) = grid.area().position(index).and_then(|p| grid.get(p)) else {
        answer.fail();
        return;
    };
    answer.text(" ");
    let Some(text) = write_state(alloc, state).ok() else {
        answer.fail();
        return;
    };
    answer.bytes(&text)
}

fn tell_entity(alloc: Global, answer: &mut Answer, at: &Pos, entity: &Entity) {
    answer.text("; ");
    tell_position(answer, at);
    answer.text(" has ");
    tell_tags(alloc, answer, entity.before());
    answer.text(" Pos ");
    tell_tags(alloc, answer, entity.after())
}

/// The tags that these bytes spell, in brackets.
fn tell_tags(alloc: Global, answer: &mut Answer, bytes: &[u8]) {
    let Ok(Some(row)) = read_row(alloc, bytes, 3) else {
        answer.fail();
        return;
    };
    answer.text("[");
    show_row(alloc, answer, row.as_slice());
    answer.text("]");
}
