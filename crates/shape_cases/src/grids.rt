//! Worlds in memory. Their states stand as texts with `/` between, and the numbers of their blocks' states in index order with
//! commas between.

use crate::words::{area_of, pos_of, put, put_pos};
use block_state::read_state;
use case_lines::Answer;
use edit_terms::{BlockState, Entities, Entity, Grid, Pos, WorldBox};
use std::alloc::Global;
use std::sync::Arc;

/// `grid BOX STATES NUMBERS`: the name of each block in index order, with `;` behind it; none where there is no such world.
pub(crate) fn grid(alloc: Global, input: &str, answer: &mut Answer) -> Option<()> {
    let (word, rest) = input.split_once(' ')?;
    let area = area_of(word)?;
    let (states, numbers) = rest.split_once(' ')?;
    match grid_of(alloc, &area, states, numbers)? {
        Some(grid) => {
            put_names(&grid, answer);
            Some(())
        }
        None => {
            answer.text("none");
            Some(())
        }
    }
}

/// `cell BOX STATES NUMBERS POSITION`: the name of a block; none outside.
pub(crate) fn cell(alloc: Global, input: &str, answer: &mut Answer) -> Option<()> {
    let (word, rest) = input.split_once(' ')?;
    let area = area_of(word)?;
    let (states, rest) = rest.split_once(' ')?;
    let (numbers, p) = rest.split_once(' ')?;
    put_name(
        &grid_of(alloc, &area, states, numbers)??,
        pos_of(p)?,
        answer,
    );
    Some(())
}

fn grid_of(alloc: Global, area: &WorldBox, states: &str, numbers: &str) -> Option<Option<Grid>> {
    let kinds = states_of(alloc, states)?;
    let cells = numbers_of(alloc, numbers)?;
    Some(Grid::from_parts(alloc, *area, kinds, cells))
}

fn states_of(alloc: Global, text: &str) -> Option<Vec<BlockState>> {
    let mut states = Vec::new(alloc);
    for word in text.split('/') {
        states.push(read_state(alloc, word.as_bytes()).ok()?).ok()?;
    }
    Some(states)
}

fn numbers_of(alloc: Global, text: &str) -> Option<Vec<u32>> {
    let mut numbers = Vec::new(alloc);
    if !text.is_empty() {
        for word in text.split(',') {
            numbers.push(word.parse::<u32>().ok()?).ok()?;
        }
    }
    Some(numbers)
}

fn put_names(grid: &Grid, answer: &mut Answer) {
    for index in 0..grid.area().volume() {
        match grid.area().position(index) {
            Some(p) => put_name(grid, p, answer),
            None => answer.fail(),
        }
        answer.text(";");
    }
}

/// Puts the name of a block, which has no entity.
fn put_name(grid: &Grid, p: Pos, answer: &mut Answer) {
    if grid.entity(p).is_some() {
        answer.fail();
        return;
    }
    match grid.get(p) {
        Some(state) => answer.bytes(state.name()),
        None => answer.text("none"),
    }
}

/// `entities BOX POSITION=WORD ..`: the positions with entities of a world of the box that has these, in index order, each
/// with its word and `;` behind it; none where no world has them.
pub(crate) fn entities(alloc: Global, input: &str, answer: &mut Answer) -> Option<()> {
    let (word, rest) = input.split_once(' ')?;
    let area = area_of(word)?;
    let grid = stone_of(alloc, &area)?;
    match grid.with_entities(entities_of(alloc, rest)?) {
        Some(grid) => {
            put_entities(&grid, answer);
            Some(())
        }
        None => {
            answer.text("none");
            Some(())
        }
    }
}

/// A world of stone.
fn stone_of(alloc: Global, area: &WorldBox) -> Option<Grid> {
    let mut cells = Vec::new(alloc);
    for _ in 0..area.volume() {
        cells.push(0).ok()?;
    }
    Grid::from_parts(alloc, *area, states_of(alloc, "stone")?, cells)
}

fn entities_of(alloc: Global, words: &str) -> Option<Entities> {
    let mut list = Vec::new(alloc);
    if !words.is_empty() {
        for word in words.split(' ') {
            list.push(placed_of(alloc, word)?).ok()?;
        }
    }
    Some(Entities::from_vec(list))
}

fn placed_of(alloc: Global, word: &str) -> Option<(Pos, Arc<Entity>)> {
    let (p, tags) = word.split_once('=')?;
    let before = Vec::from_slice(alloc, tags.as_bytes()).ok()?;
    let entity = Entity::new(before, Vec::new(alloc));
    Some((pos_of(p)?, Arc::new(alloc, entity).ok()?))
}

fn put_entities(grid: &Grid, answer: &mut Answer) {
    for index in 0..grid.area().volume() {
        match grid.area().position(index) {
            Some(p) => put_entity(grid, p, answer),
            None => answer.fail(),
        }
    }
    answer.text("end")
}

/// Puts a position and its entity, where it has one.
fn put_entity(grid: &Grid, p: Pos, answer: &mut Answer) {
    let Some(entity) = grid.entity(p) else {
        return;
    };
    put_pos(&p, answer);
    answer.text("=");
    answer.bytes(entity.before());
    answer.text(";")
}
