//! Laws over the spellings of all named tags.

ghost use Rattle.std.specs.Prelude.{◌≡◌, ◌<◌, ◌++◌, ℕ, List, length};
ghost use Rattle.nbt_tags.specs.declared.ending.Ending.{Ending};
ghost use Rattle.nbt_tags.specs.declared.tag.Named.{Named};
ghost use Rattle.nbt_tags.specs.Reading.{row_at, whole_row_at, payload_at};
ghost use Rattle.nbt_tags.specs.Spelling.{Spells, SpellsRow, none_taken};
ghost use Rattle.nbt_tags.specs.WellFormed.{IsWellFormed, IsWellFormedRow};
ghost use Rattle.nbt_tags.specs.Written.{written, written_row};

/// What is written is read back, whatever follows it. The function does nothing: its contract is the
/// law.
pub fn round_trip()
    // No spelling of a named tag begins another spelling, of that tag or of any.
    ensures prefix { (a b x y : List ℕ) (s t : Named) → Spells s a → Spells t b
        → a ++ x ≡ b ++ y → (a ≡ b) × (s ≡ t) }
    // The written spelling of a well-formed named tag spells it.
    ensures spelled { (tag : Named) → IsWellFormed tag → Spells tag (written tag) }

    // The same of rows, each of which is all of its bytes.
    ensures one_row { (depth : ℕ) (bytes : List ℕ) (r s : List Named)
        → SpellsRow depth r bytes → SpellsRow depth s bytes → r ≡ s }
    ensures row_spelled { (depth : ℕ) (row : List Named)
        → IsWellFormedRow depth row → SpellsRow depth row (written_row row) }
{}

/// The definition of reading a row goes by steps. How many it has plays no role, if they are more than
/// the bytes. The function does nothing: its contract is the law.
pub fn steps_are_enough()
    ensures { (levels steps : ℕ) (ending : Ending) (bytes : List ℕ) → length bytes < steps
        → row_at (payload_at levels) ending steps none_taken bytes
        ≡ whole_row_at (payload_at levels) ending bytes }
{}
