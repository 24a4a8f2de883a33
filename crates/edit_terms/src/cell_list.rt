ghost use Rattle.std.specs.Prelude.{◌≡◌, ◌+◌, ◌<◌, ◌≤◌, List, length, Some, option_map, IfSome, option_copied};
ghost use Rattle.std.specs.Arc.{arc_value};
ghost use Rattle.edit_terms.specs.declared.pos.Pos.{Pos};
ghost use Rattle.edit_terms.specs.World.{BlockContent};
ghost use Rattle.edit_terms.specs.CellList.{position_in, state_in, entity_in, IsSameFrom, IsStretch};

use crate::block_state::BlockState;
use crate::entity::Entity;
use crate::pos::Pos;
use crate::stretch::Stretch;
use std::sync::Arc;

/// A list of positions, each with the content that stands there.
pub trait CellList {
    /// The positions and their contents in order.
    ghost cells: { Self → List (Pos × BlockContent) };

    /// How many positions it lists.
    fn len(&self) -> u32
        ensures { result ≡ length (cells self.now) };

    /// The position at a place of the list.
    fn at(&self, i: u32) -> Pos
        requires { i < length (cells self.now) }
        ensures { position_in (cells self.now) i ≡ Some result };

    /// The state at a place of the list.
    fn state(&self, i: u32) -> &BlockState
        requires { i < length (cells self.now) }
        ensures { state_in (cells self.now) i ≡ Some result.now };

    /// The entity at a place of the list. None exactly where it has none there or the list is shorter.
    fn entity(&self, i: u32) -> Option<&Arc<Entity>>
        ensures { option_map arc_value (option_copied result) ≡ entity_in (cells self.now) i };

    /// A number of positions from a place on that have the content of this one, itself among them. They
    /// may be fewer than all that have it.
    fn reach(&self, i: u32) -> u32
        requires { i < length (cells self.now) }
        ensures some { 0 < result }
        ensures within { i + result ≤ length (cells self.now) }
        ensures same { IsSameFrom (cells self.now) i result };

    /// What the list goes on with from a place on, where it keeps that as a stretch of one content: its
    /// cells from there are the blocks of the stretch, one by one. None where it keeps none there, and its
    /// cells are then read one by one.
    fn stretch(&self, i: u32) -> Option<Stretch>
        requires { i < length (cells self.now) }
        ensures { IfSome result (IsStretch (cells self.now) i) };
}
