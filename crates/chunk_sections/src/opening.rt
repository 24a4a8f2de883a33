//! Columns of a grid.
ghost use Rattle.std.specs.Prelude.{◌≡◌, ◌<◌, ◌≤◌, ◌+◌, true, All, List, [], ◌∷◌, ◌++◌, if◌then◌else◌, map, length, IfOk, OnOk};
ghost use Rattle.std.specs.Arc.{arc_value};
ghost use Rattle.std.specs.List.{filter, range_with_len};
ghost use Rattle.edit_terms.specs.Area.{holds, volume, position_of, chunks, is_world_box};
ghost use Rattle.edit_terms.specs.Grid.{world_of};
ghost use Rattle.chunk_sections.specs.Column.{column_of, column_box, kind_at, grid_sections, IsGridPart, shown_entity, shown_entities};

use crate::column::Column;
use crate::cut::Cut;
use crate::place::column_box;
use crate::section::Section;
use edit_terms::{Entities, Entity, Grid, Pos, WorldBox};
use memory::Memory;
use std::alloc::Global;
use std::sync::Arc;

impl Column {
    /// The blocks of a chunk of a grid, with what stands there in the grid's world.
    pub fn from_grid(alloc: Global, grid: &Grid, chunk: u32) -> Result<Column, Memory>
        requires { chunk < chunks grid.now.area }
        ensures { IfOk result (λ column. column ≡ column_of (world_of grid.now) chunk) }
    {
        let area = grid.area();
        area.well_formed();
        let part = column_box(area, chunk);
        part.well_formed();
        let sections = sections_of(alloc, grid, &part)?;
        let entities = entities_of(alloc, grid, &part)?;
        Ok(Column {
            area: *area,
            chunk,
            part,
            sections,
            entities,
        })
    }
}

/// The sections of a smaller box of a grid.
fn sections_of(alloc: Global, grid: &Grid, part: &WorldBox) -> Result<Vec<Section>, Memory>
    requires { IsGridPart grid.now part.now }
    ensures { IfOk result (λ sections. sections.items ≡ grid_sections grid.now part.now) }
{
    let cut = Cut::of(part);
    let count = cut.count();
    let mut kinds = Vec::new(alloc);
    let mut sections = Vec::with_capacity(alloc, count as usize)?;
    for number in 0..count {
        gather(&mut kinds, grid, part, cut.start(number), cut.size(number))?;
        sections.push(Section::made(alloc, grid.kinds(), &kinds)?)?;
    }
    Ok(sections)
}

/// The kinds of so many blocks of a smaller box of a grid, from a place on, into a buffer.
fn gather(
    kinds: &mut Vec<u32>,
    grid: &Grid,
    part: &WorldBox,
    first: u32,
    count: u32,
) -> Result<(), Memory>
    requires part { IsGridPart grid.now part.now }
    requires within { first + count ≤ volume part.now }
    ensures below { OnOk result (All (λ kind. kind < length grid.now.kinds) kinds.new.items) }
    ensures kinds { OnOk result (kinds.new.items ≡ map (λ i. kind_at grid.now (position_of part.now i)) (range_with_len first count)) }
{
    kinds.clear();
    for further in 0..count {
        kinds.push(kind_of(grid, part, first + further))?;
    }
    Ok(())
}

/// The kind of the block at a place of a smaller box of a grid.
#[inline(always)]
fn kind_of(grid: &Grid, part: &WorldBox, place: u32) -> u32
    requires part { IsGridPart grid.now part.now }
    requires within { place < volume part.now }
    ensures value { result ≡ kind_at grid.now (position_of part.now place) }
    ensures below { result < length grid.now.kinds }
{
    let p = part.position(place).unwrap();
    let index = grid.area().index_of(p).unwrap();
    grid.cells()[index as usize]
}

/// The entities of a grid that stand in a smaller box.
fn entities_of(alloc: Global, grid: &Grid, part: &WorldBox) -> Result<Entities, Memory>
    ensures { IfOk result (λ list. shown_entities list ≡ filter (λ e. holds part.now e.0) grid.now.entities) }
{
    let mut list = Vec::new(alloc);
    for placed in grid.entities() {
        keep(&mut list, part, placed)?;
    }
    Ok(Entities::from_vec(list))
}

/// Lists an entity where it stands in the box.
fn keep(
    list: &mut Vec<(Pos, Arc<Entity>)>,
    part: &WorldBox,
    placed: &(Pos, Arc<Entity>),
) -> Result<(), Memory>
    ensures { OnOk result (shown_entities list.new.items ≡ shown_entities list.old.items ++ (if holds part.now placed.now.0 then shown_entity placed.now ∷ [] else [])) }
{
    if part.holds(placed.0) {
        list.push((placed.0, Arc::try_clone(&placed.1)?))?;
    }
    Ok(())
}
