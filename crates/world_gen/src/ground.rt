//! The world of the drill.

ghost use Rattle.std.specs.Prelude.{◌≡◌, IfOk, [], ◌∷◌, map};
ghost use Rattle.std.specs.List.{range_with_len};
ghost use Rattle.edit_terms.specs.Area.{volume, position_of};
ghost use Rattle.edit_terms.specs.StateText.{air};
ghost use Rattle.edit_terms.specs.Grid.{world_of};
ghost use Rattle.world_gen.specs.Drill.{stone, dirt, grass_block, drill_area, drill_world, ground_over};
ghost use Rattle.world_gen.specs.Ground.{ground_number};

use crate::states::{air, dirt, grass_block, stone};
use edit_terms::{BlockState, Grid, Pos, WorldBox};
use memory::Memory;
use std::alloc::Global;

/// The world of the drill as a grid.
pub(crate) fn drill_grid(alloc: Global) -> Result<Grid, Memory>
    ensures { IfOk result (λ grid. world_of grid ≡ drill_world) }
{
    ground(alloc, drill_area())
}

/// The ground over a box.
fn ground(alloc: Global, area: WorldBox) -> Result<Grid, Memory>
    ensures { IfOk result (λ grid. world_of grid ≡ ground_over area) }
{
    let kinds = kinds(alloc)?;
    let cells = cells(alloc, &area)?;
    let Some(grid) = Grid::from_parts(alloc, area, kinds, cells) else {
        unreachable!()
    };
    Ok(grid)
}

/// The box.
fn drill_area() -> WorldBox
    ensures { result ≡ drill_area }
{
    let Some(area) = WorldBox::new(Pos { x: 0, y: 0, z: 0 }, 256, 32, 64) else {
        unreachable!()
    };
    area
}

/// The states by number, from the ground up.
fn kinds(alloc: Global) -> Result<Vec<BlockState>, Memory>
    ensures { IfOk result (λ kinds. kinds.items ≡ stone ∷ dirt ∷ grass_block ∷ air ∷ []) }
{
    let mut kinds = Vec::with_capacity(alloc, 4)?;
    kinds.push(stone(alloc)?)?;
    kinds.push(dirt(alloc)?)?;
    kinds.push(grass_block(alloc)?)?;
    kinds.push(air(alloc)?)?;
    Ok(kinds)
}

/// The number of the state at a position.
fn number_at(p: &Pos) -> u32
    ensures { result ≡ ground_number p.now }
{
    if p.y < 8 {
        return 0;
    }
    if p.y < 12 {
        return 1;
    }
    if p.y < 13 {
        return 2;
    }
    3
}

/// The number of each position's state, in index order.
fn cells(alloc: Global, area: &WorldBox) -> Result<Vec<u32>, Memory>
    ensures { IfOk result (λ cells. cells.items ≡ map (λ index. ground_number (position_of area.now index)) (range_with_len 0 (volume area.now))) }
{
    let mut cells = Vec::with_capacity(alloc, area.volume() as usize)?;
    for index in 0..area.volume() {
        let Some(p) = area.position(index) else {
            unreachable!()
        };
        cells.push(number_at(&p))?;
    }
    Ok(cells)
}
