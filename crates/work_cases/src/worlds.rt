//! Worlds as texts.

use crate::positions::position_of;
use crate::runs::{Run, run_of};
use block_state::read_state;
use edit_terms::{BlockState, Entity, Grid, Items, Pos, WorldBox};
use std::alloc::Global;
use std::sync::Arc;

/// The world of a text.
pub(crate) fn world_of(alloc: Global, text: &str) -> Option<Grid> {
    let (sizes, rest) = text.split_once(' ')?;
    let (least, runs) = least_of(rest)?;
    let area = area_of(sizes, least)?;
    let making = made(alloc, &area, runs)?;
    let Making {
        kinds,
        cells,
        entities,
    } = making;
    let grid = Grid::from_parts(alloc, area, kinds, cells)?;
    grid.with_entities(Items::from_vec(entities))
}

/// The least corner of a box, and the runs behind it.
fn least_of(rest: &str) -> Option<(&str, &str)> {
    match rest.strip_prefix("at ") {
        None => Some(("0,0,0", rest)),
        Some(rest) => rest.split_once(' '),
    }
}

/// The box of these sizes, `WxHxL`, and this least corner.
fn area_of(sizes: &str, least: &str) -> Option<WorldBox> {
    let (width, rest) = sizes.split_once('x')?;
    let (height, length) = rest.split_once('x')?;
    let least = position_of(least)?;
    WorldBox::new(
        least,
        width.parse().ok()?,
        height.parse().ok()?,
        length.parse().ok()?,
    )
}

/// The parts of a world that is being made.
#[derive(Drop)]
struct Making {
    kinds: Vec<BlockState>,
    cells: Vec<u32>,
    entities: Vec<(Pos, Arc<Entity>)>,
}

/// The parts of a world of these runs.
fn made(alloc: Global, area: &WorldBox, runs: &str) -> Option<Making> {
    let mut making = Making {
        kinds: Vec::new(alloc),
        cells: Vec::new(alloc),
        entities: Vec::new(alloc),
    };
    for run in runs.split(' ') {
        add(alloc, area, &mut making, run)?;
    }
    Some(making)
}

/// Appends the blocks of a run.
fn add(alloc: Global, area: &WorldBox, making: &mut Making, text: &str) -> Option<()> {
    let left = (area.volume() as usize).saturating_sub(making.cells.len());
    let run = run_of(text, left)?;
    if run.count > left {
        return None;
    }
    let kind = u32::try_from(making.kinds.len()).ok()?;
    add_entities(alloc, area, making, &run)?;
    add_cells(&mut making.cells, kind, run.count)?;
    let state = read_state(alloc, run.state.as_bytes()).ok()?;
    making.kinds.push(state).ok()
}

/// Appends so many blocks of a kind.
fn add_cells(cells: &mut Vec<u32>, kind: u32, count: usize) -> Option<()> {
    for _ in 0..count {
        cells.push(kind).ok()?;
    }
    Some(())
}

/// Appends the entities of a run, where it has any.
fn add_entities(alloc: Global, area: &WorldBox, making: &mut Making, run: &Run<'_>) -> Option<()> {
    let Some((before, after)) = run.tags else {
        return Some(());
    };
    let first = making.cells.len();
    for number in 0..run.count {
        let index = u32::try_from(first.saturating_add(number)).ok()?;
        let entity = entity_of(alloc, before, after)?;
        making.entities.push((area.position(index)?, entity)).ok()?;
    }
    Some(())
}

/// The entity of these tags.
fn entity_of(alloc: Global, before: &str, after: &str) -> Option<Arc<Entity>> {
    let before = Vec::from_slice(alloc, before.as_bytes()).ok()?;
    let after = Vec::from_slice(alloc, after.as_bytes()).ok()?;
    Arc::new(alloc, Entity::new(before, after)).ok()
}
