//! A world's list of block entities says again what the world has.

ghost use Rattle.std.specs.Prelude.{◌≡◌, ◌++◌, ◌<◌, ℕ, true, List, [], Option, MatchOption, get_or};
ghost use Rattle.edit_terms.specs.Area.{is_world_box, volume};
ghost use Rattle.edit_terms.specs.World.{World, air_content};
ghost use Rattle.nbt_tags.specs.declared.tag.Tag.{Tag};
ghost use Rattle.block_entities.specs.FileEntities.{AreFileEntities};
ghost use Rattle.block_entities.specs.Gathering.{entity_at, loose_of, is_entry_list, items_of};
ghost use Rattle.block_entities.specs.Spreading.{block_entities, entries_of};

/// Does nothing: its clauses say that the list which is written for a world gives the world's entities and
/// the loose entries again.
pub fn lists_round_trip()
    // The entries say of each block of the box which entity it has.
    ensures entities { (w : World) (loose : List Tag) (index : ℕ) → is_world_box w.area ≡ true → AreFileEntities w
        → loose_of w.area loose ≡ loose → index < volume w.area
        → entity_at w.area (entries_of w ++ loose) index ≡ (get_or w.contents index air_content).entity }
    ensures loose { (w : World) (loose : List Tag) → is_world_box w.area ≡ true → AreFileEntities w
        → loose_of w.area loose ≡ loose → loose_of w.area (entries_of w ++ loose) ≡ loose }
    // The tag that is written is a list of these entries, and none is written only where there are none.
    ensures list { (w : World) (loose : List Tag) (element : Option ℕ) → MatchOption (block_entities w loose element)
        (entries_of w ++ loose ≡ [])
        (λ tag. (is_entry_list tag ≡ true) × (items_of tag ≡ entries_of w ++ loose)) }
{}
