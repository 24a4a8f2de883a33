//! From a grid to a canvas and back.

ghost use Rattle.std.specs.Prelude.{◌≡◌, ◌<◌, ◌≤◌, true, List, All, length, map, get_or, IfOk, OnOk, [], Some, is_none, option_map};
ghost use Rattle.std.specs.List.{list_all, filter_map, range_with_len};
ghost use Rattle.std.specs.Arc.{arc_value};
ghost use Rattle.edit_terms.specs.Area.{holds, volume};
ghost use Rattle.edit_terms.specs.Grid.{world_of};
ghost use Rattle.edit_terms.specs.World.{without_entity};
ghost use Rattle.plain_terms.specs.Shown.{content_shown};
ghost use Rattle.world_canvas.specs.Canvas.{shown};
ghost use Rattle.world_canvas.specs.Placing.{IsBare, IsPlaced, entity_here};

use crate::canvas::Canvas;
use crate::numbering::{content, contents_of, number, number_all};
use block_palette::Palette;
use edit_terms::{BlockState, Content, Entities, Entity, Grid, Pos, WorldBox};
use memory::Memory;
use std::alloc::Global;
use std::sync::Arc;

impl Canvas {
    /// The canvas that shows a grid's world.
    pub fn of(alloc: Global, grid: &Grid) -> Result<Canvas, Memory>
        ensures { IfOk result (λ canvas. shown canvas ≡ world_of grid.now) }
    {
        grid.area().well_formed();
        let mut canvas = Canvas::without_entities(alloc, grid)?;
        let entities = grid.entities();
        for passed in 0..entities.len() {
            let placed = &entities[entities.len() - 1 - passed];
            canvas.place(alloc, &placed.0, &placed.1)?;
        }
        Ok(canvas)
    }

    /// The canvas of a grid's states. A state that the grid lists twice gets one number.
    fn without_entities(alloc: Global, grid: &Grid) -> Result<Canvas, Memory>
        ensures { IfOk result (λ canvas. IsBare grid.now canvas) }
    {
        let mut kinds = Palette::new(alloc);
        let contents = bare_contents(alloc, grid.kinds())?;
        let numbers = number_all(alloc, &mut kinds, &contents)?;
        let cells = renumbered(alloc, grid.cells(), &numbers)?;
        Ok(Canvas {
            area: *grid.area(),
            kinds,
            cells,
        })
    }

    /// Gives the block at a position an entity.
    fn place(&mut self, alloc: Global, p: &Pos, entity: &Arc<Entity>) -> Result<(), Memory>
        requires { holds self.old.area p.now ≡ true }
        ensures { OnOk result (IsPlaced self.old self.new p.now (arc_value entity.now)) }
    {
        let index = self.area.index_of(*p).unwrap();
        let content = with_entity(alloc, self.content(index), entity)?;
        let number = number(&mut self.kinds, content)?;
        self.cells[index as usize] = number;
        Ok(())
    }

    /// The content at a place.
    fn content(&self, index: u32) -> &Content
        requires { index < volume self.now.area }
        ensures { result.now ≡ content_shown self.now.kinds self.now.cells index }
    {
        content(&self.kinds, self.cells[index as usize])
    }

    /// The entity at a place.
    fn entity(&self, index: u32) -> Option<&Arc<Entity>>
        requires { index < volume self.now.area }
        ensures { option_map (λ e. arc_value e.now) result ≡ (content_shown self.now.kinds self.now.cells index).entity }
    {
        match &self.content(index).entity {
            None => None,
            Some(entity) => Some(entity),
        }
    }

    /// The grid of these blocks.
    pub fn into_grid(self, alloc: Global) -> Result<Grid, Memory>
        ensures { IfOk result (λ grid. world_of grid ≡ shown self) }
    {
        self.area.well_formed();
        let entities = entities(alloc, &self)?;
        let contents = contents_of(alloc, &self.kinds)?;
        let states = states(alloc, &contents)?;
        let grid = Grid::from_parts(alloc, self.area, states, self.cells).unwrap();
        Ok(grid.with_entities(entities).unwrap())
    }
}

/// The number that each of these numbers has become.
fn renumbered(alloc: Global, cells: &[u32], numbers: &[u32]) -> Result<Vec<u32>, Memory>
    requires { All (λ n. n < length numbers.now) cells.now }
    ensures { IfOk result (λ new. new.items ≡ map (λ n. get_or numbers.now n 0) cells.now) }
{
    let mut new = Vec::with_capacity(alloc, cells.len())?;
    for cell in cells {
        new.push(numbers[*cell as usize])?;
    }
    Ok(new)
}

/// The same state with this entity.
fn with_entity(alloc: Global, content: &Content, entity: &Arc<Entity>) -> Result<Content, Memory>
    ensures { IfOk result (λ c. c ≡ record content.now { entity = Some (arc_value entity.now) }) }
{
    Ok(Content {
        state: content.state.copy(alloc)?,
        entity: Some(Arc::try_clone(entity)?),
    })
}

/// A state without an entity.
fn bare_content(alloc: Global, state: &BlockState) -> Result<Content, Memory>
    ensures { IfOk result (λ content. content ≡ without_entity state.now) }
{
    Ok(Content {
        state: state.copy(alloc)?,
        entity: None,
    })
}

/// These states, without entities.
fn bare_contents(alloc: Global, states: &[BlockState]) -> Result<Vec<Content>, Memory>
    ensures { IfOk result (λ contents. contents.items ≡ map without_entity states.now) }
{
    let mut contents = Vec::with_capacity(alloc, states.len())?;
    for state in states {
        contents.push(bare_content(alloc, state)?)?;
    }
    Ok(contents)
}

/// The states of these contents.
fn states(alloc: Global, contents: &[Content]) -> Result<Vec<BlockState>, Memory>
    ensures { IfOk result (λ states. states.items ≡ map (λ c. c.state) contents.now) }
{
    let mut states = Vec::with_capacity(alloc, contents.len())?;
    for content in contents {
        states.push(content.state.copy(alloc)?)?;
    }
    Ok(states)
}

/// The entities of a canvas by position, in index order.
fn entities(alloc: Global, canvas: &Canvas) -> Result<Entities, Memory>
    ensures { IfOk result (λ list. map (λ e. (e.0, arc_value e.1)) list ≡ filter_map (entity_here canvas.now) (range_with_len 0 (volume canvas.now.area))) }
{
    let mut list = Vec::new(alloc);
    for index in 0..canvas.area.volume() {
        if let Some(entity) = canvas.entity(index) {
            let p = canvas.area.position(index).unwrap();
            list.push((p, Arc::try_clone(entity)?))?;
        }
    }
    Ok(Entities::from_vec(list))
}
