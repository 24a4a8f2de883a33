//! Writing named tags.

ghost use Rattle.std.specs.Prelude.{◌≡◌, ℕ, ◌++◌, IfOk, OnOk};
ghost use Rattle.nbt_tags.specs.Spelling.{Spells, SpellsRow};
ghost use Rattle.nbt_tags.specs.WellFormed.{IsWellFormed, IsWellFormedRow};
ghost use Rattle.nbt_tags.specs.Written.{written, written_row};

use crate::tag::Named;
use crate::write::{put_entry, put_row};
use memory::Memory;
use std::alloc::Global;

/// The written spelling of a well-formed named tag, as each is that `decode` gives.
pub fn encode(alloc: Global, tag: &Named) -> Result<Vec<u8>, Memory>
    requires { IsWellFormed tag.now }
    ensures exact { IfOk result (λ bytes. bytes.items ≡ written tag.now) }
    ensures spelled { IfOk result (λ bytes. Spells tag.now bytes.items) }
{
    let mut bytes = Vec::new(alloc);
    put_entry(&mut bytes, tag)?;
    Ok(bytes)
}

/// The written spelling of a row of named tags, as it stands between the braces of a compound, without
/// the byte 0 behind it.
pub fn encode_row(alloc: Global, row: &[Named]) -> Result<Vec<u8>, Memory>
    ensures exact { IfOk result (λ bytes. bytes.items ≡ written_row row.now) }
    // Where the row is well formed in a compound of some depth, the bytes spell it there.
    ensures spelled { (depth : ℕ) → IsWellFormedRow depth row.now
        → IfOk result (λ bytes. SpellsRow depth row.now bytes.items) }
{
    let mut bytes = Vec::new(alloc);
    put_row(&mut bytes, row)?;
    Ok(bytes)
}

/// Puts the written spelling of a row of named tags, as it stands between the braces of a compound, behind what
/// is there. Takes no memory where the vector has room for it.
pub fn append_row(out: &mut Vec<u8>, row: &[Named]) -> Result<(), Memory>
    ensures { OnOk result (out.new.items ≡ out.old.items ++ written_row row.now) }
{
    put_row(out, row)?;
    Ok(())
}
