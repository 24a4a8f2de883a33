//! What is written is read again.

ghost use Rattle.std.specs.Prelude.{◌≡◌, ◌++◌, ◌∷◌, [], List, Ok, Some, ℕ, ℤ};
ghost use Rattle.edit_terms.specs.Area.{Area};
ghost use Rattle.edit_terms.specs.World as terms;
ghost use Rattle.nbt_tags.specs.declared.tag.Tag.{Tag};
ghost use Rattle.nbt_tags.specs.WellFormed.{IsWellFormed};
ghost use Rattle.block_entities.specs.Spreading.{entries_of};
ghost use Rattle.sponge_schematic.specs.Carried.{CarriedTags, Loaded, bare_tags};
ghost use Rattle.sponge_schematic.specs.File.{schematic_bytes, schematic_tree};
ghost use Rattle.sponge_schematic.specs.RoundTrip.{IsBeside, IsFileWorld, read_again};
ghost use Rattle.sponge_schematic.specs.Schematic.{schematic_of};

/// Does nothing: its clauses say that the file of a world and of tags beside it, if its tree is well formed, is
/// read as the same world, block by block, and as the same tags.
pub fn files_round_trip()
    ensures again { (carried : CarriedTags) (w : terms.World) → IsFileWorld w → IsBeside w.area carried
        → IsWellFormed (schematic_tree carried w)
        → schematic_of (schematic_bytes carried w) ≡ Ok (record { carried = read_again carried w; world = w }) }

    // Such tags are the version alone, and what was read beside a world of the box.
    ensures bare { (area : Area) (version : ℤ) → IsBeside area (bare_tags version) }
    ensures read { (bytes : List ℕ) (l : Loaded) → schematic_of bytes ≡ Ok l → IsBeside l.world.area l.carried }

    // Where no entry is written, the list is there with its element type if it was before; else it is there.
    ensures empty { (carried : CarriedTags) (w : terms.World) → entries_of w ++ carried.loose ≡ []
        → (read_again carried w).element ≡ carried.element }
    ensures entries { (carried : CarriedTags) (w : terms.World) (first : Tag) (others : List Tag)
        → entries_of w ++ carried.loose ≡ first ∷ others → (read_again carried w).element ≡ Some 10 }
{}
