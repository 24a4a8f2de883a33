ghost use Rattle.std.specs.Prelude.{◌≡◌, ◌==◌, ◌&&◌, ◌<◌, true, false, MatchOption, IfSome, List, [], length, map, option_copied, nat_lt, Option, None};
ghost use Rattle.std.specs.Arc.{arc_value};
ghost use Rattle.std.specs.List.{list_all, find};
ghost use Rattle.edit_terms.specs.Grid.{is_same_pos, is_rising_from, entity_of};
ghost use Rattle.edit_terms.specs.Area.{holds, index_of, volume};
ghost use Rattle.edit_terms.specs.World.{state_at, content_at};

use crate::block_state::BlockState;
use crate::entity::{Entities, Entity};
use crate::pos::Pos;
use crate::world_box::WorldBox;
use std::alloc::Global;
use std::marker::Model;
use std::sync::Arc;

/// A world in memory: a box, its states by number, the number of each position's state in index order,
/// and the entities of its blocks.
#[derive(Debug, Drop)]
pub struct Grid {
    area: WorldBox,
    kinds: Vec<BlockState>,
    cells: Vec<u32>,
    entities: Entities,
}

impl Model for Grid {
    ghost use Rattle.std.specs.Prelude.{map};
    ghost use Rattle.std.specs.Arc.{arc_value};
    ghost use Rattle.edit_terms.specs.Grid.{GridParts, IsGrid};

    ghost Value = { GridParts };

    ghost view = { λ g. record { area = g.area; kinds = g.kinds.items; cells = g.cells.items; entities = map (λ e. (e.0, arc_value e.1)) g.entities } };

    ghost invariant = { λ g. IsGrid (record { area = g.area; kinds = g.kinds.items; cells = g.cells.items; entities = map (λ e. (e.0, arc_value e.1)) g.entities }) };
}

impl Grid {
    ghost use Rattle.edit_terms.specs.Grid.{GridParts, world_of, is_numbered, state_of_cell};

    /// The world whose position of index `i` has the state `kinds[cells[i]]`, and no entity. None
    /// exactly where the count of cells isn't the volume or a number isn't below the count of kinds; the
    /// vectors are dropped then. Takes no memory.
    pub fn from_parts(
        alloc: Global,
        area: WorldBox,
        kinds: Vec<BlockState>,
        cells: Vec<u32>,
    ) -> Option<Grid>
        ensures { MatchOption result (is_numbered area kinds.items cells.items ≡ false)
            (λ g. g ≡ record { area = area; kinds = kinds.items; cells = cells.items; entities = [] }) }
    {
        if is_numbered(&area, kinds.len(), &cells) {
            Some(Grid {
                area,
                kinds,
                cells,
                entities: Entities::from_vec(Vec::new(alloc)),
            })
        } else {
            None
        }
    }

    /// The box.
    pub fn area(&self) -> &WorldBox
        ensures { result.now ≡ self.now.area }
    {
        &self.area
    }

    /// The states by number; two may be one state.
    pub fn kinds(&self) -> &[BlockState]
        ensures { result.now ≡ self.now.kinds }
    {
        &self.kinds
    }

    /// The number of each position's state, in index order: each position has one, and each names a state.
    pub fn cells(&self) -> &[u32]
        ensures cells { result.now ≡ self.now.cells }
        ensures numbered { is_numbered self.now.area self.now.kinds self.now.cells ≡ true }
    {
        &self.cells
    }

    /// The entities by position. No two have one position, and they are in index order.
    pub fn entities(&self) -> &[(Pos, Arc<Entity>)]
        ensures entities { map (λ e. (e.0, arc_value e.1)) result.now ≡ self.now.entities }
        ensures rising { is_rising_from self.now.area 0 self.now.entities ≡ true }
    {
        self.entities.as_slice()
    }

    /// The state at a position. None exactly outside the box.
    #[tactic(auto, using(crate::proofs::WorldLemmas::state_at_block))]
    pub fn get(&self, p: Pos) -> Option<&BlockState>
        ensures { MatchOption result (holds self.now.area p ≡ false) (λ state. (holds self.now.area p ≡ true) × (state.now ≡ state_at (world_of self.now) p)) }
    {
        match self.area.index_of(p) {
            None => None,
            Some(index) => Some(self.state_of_cell(index)),
        }
    }

    fn state_of_cell(&self, index: u32) -> &BlockState
        requires { index < volume self.now.area }
        ensures { result.now ≡ state_of_cell self.now index }
    {
        &self.kinds[self.cells[index as usize] as usize]
    }

    /// The entity at a position. None exactly where the position is outside the box or has none.
    #[tactic(auto, using(crate::proofs::WorldLemmas::entity_at_block, crate::proofs::WorldLemmas::no_entity_outside))]
    pub fn entity(&self, p: Pos) -> Option<&Entity>
        ensures { option_copied result ≡ (content_at (world_of self.now) p).entity }
    {
        if !self.area.holds(p) {
            return None;
        }
        entity_of(self.entities.as_slice(), &p)
    }

    /// The grid whose positions have exactly the listed entities. None exactly where a position is
    /// outside the box or the positions don't strictly rise in index order; the grid and the list are
    /// dropped then. Takes no memory.
    pub fn with_entities(self, list: Entities) -> Option<Grid>
        ensures { MatchOption result
            (is_rising_from self.area 0 (map (λ e. (e.0, arc_value e.1)) list) ≡ false)
            (λ g. g ≡ record self { entities = map (λ e. (e.0, arc_value e.1)) list }) }
    {
        if is_rising(&self.area, list.as_slice()) {
            Some(Grid {
                area: self.area,
                kinds: self.kinds,
                cells: self.cells,
                entities: list,
            })
        } else {
            None
        }
    }
}

fn is_numbered(area: &WorldBox, kinds: usize, cells: &[u32]) -> bool
    ensures { result ≡ (length cells.now == volume area.now && list_all (λ n. nat_lt n kinds) cells.now) }
{
    cells.len() == area.volume() as usize && are_below(cells, kinds)
}

fn are_below(cells: &[u32], kinds: usize) -> bool
    ensures { result ≡ list_all (λ n. nat_lt n kinds) cells.now }
{
    cells.iter().all(|n| (*n as usize) < kinds)
}

#[tactic(auto, using(crate::proofs::WorldLemmas::entity_listed))]
fn entity_of<'a>(list: &'a [(Pos, Arc<Entity>)], p: &Pos) -> Option<&'a Entity>
    ensures { option_copied result ≡ entity_of (map (λ e. (e.0, arc_value e.1)) list.now) p.now }
{
    match placed_at(list, p) {
        None => None,
        Some(placed) => Some(&placed.1),
    }
}

fn placed_at<'a>(list: &'a [(Pos, Arc<Entity>)], p: &Pos) -> Option<&'a (Pos, Arc<Entity>)>
    ensures { option_copied result ≡ find (λ e. is_same_pos e.0 p.now) list.now }
{
    list.iter().find(|placed| placed.0 == *p)
}

fn is_rising(area: &WorldBox, list: &[(Pos, Arc<Entity>)]) -> bool
    ensures { result ≡ is_rising_from area.now 0 (map (λ e. (e.0, arc_value e.1)) list.now) }
{
    let mut least = 0;
    for placed in list {
        let Some(index) = area.index_of(placed.0) else {
            return false;
        };
        if index < least {
            return false;
        }
        least = index + 1;
    }
    true
}
