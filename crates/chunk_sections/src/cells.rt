//! A column as a list of its blocks with what stands there.
use crate::column::Column;
use edit_terms::{BlockState, CellList, Entity, Pos, Stretch};
use std::sync::Arc;

/// The blocks of the chunk in index order.
impl CellList for Column {
    ghost use Rattle.chunk_sections.specs.Column.{column_cells};

    ghost cells = { column_cells };

    #[tactic(auto, using(crate::proofs::CellLemmas::cells_length))]
    fn len(&self) -> u32 {
        self.blocks().volume()
    }

    #[tactic(auto, using(crate::proofs::CellLemmas::position_there))]
    fn at(&self, i: u32) -> Pos {
        self.position_at(i)
    }

    #[tactic(auto, using(crate::proofs::CellLemmas::state_there))]
    fn state(&self, i: u32) -> &BlockState {
        self.state_at(i)
    }

    #[tactic(auto, using(crate::proofs::CellLemmas::entity_there, crate::proofs::CellLemmas::entity_past))]
    fn entity(&self, i: u32) -> Option<&Arc<Entity>> {
        if i >= self.blocks().volume() {
            return None;
        }
        self.shared_entity(i)
    }

    #[tactic(auto, using(crate::proofs::CellLemmas::same_one))]
    fn reach(&self, _i: u32) -> u32 {
        1
    }

    fn stretch(&self, _i: u32) -> Option<Stretch> {
        None
    }
}
