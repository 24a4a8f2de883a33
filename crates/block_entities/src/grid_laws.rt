//! The entities of a grid and those of the world that it keeps.

ghost use Rattle.std.specs.Prelude.{◌≡◌, All, true, length, map};
ghost use Rattle.edit_terms.specs.Area.{is_world_box};
ghost use Rattle.edit_terms.specs.Grid.{GridParts, IsGrid, world_of};
ghost use Rattle.block_entities.specs.FileEntities.{IsFileEntity, AreFileEntities, entity_count};

/// Does nothing: its clauses say what the list of a grid's entities says of the world that the grid keeps.
pub fn entities_of_grids()
    ensures good { (g : GridParts) → All IsFileEntity (map (λ e. e.1) g.entities) → AreFileEntities (world_of g) }
    ensures count { (g : GridParts) → is_world_box g.area ≡ true → IsGrid g → entity_count (world_of g) ≡ length g.entities }
{}
