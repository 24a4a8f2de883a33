//! The root of a schematic.

ghost use Rattle.std.specs.Prelude.{◌≡◌, ◌<◌, ◌^◌, length, IfOk};
ghost use Rattle.nbt_tags.specs.Reading.{decoded};
ghost use Rattle.nbt_tags.specs.Spelling.{Spells};
ghost use Rattle.nbt_tags.specs.WellFormed.{IsWellFormed};
ghost use Rattle.sponge_schematic.specs.Answers.{Gives};
ghost use Rattle.sponge_schematic.specs.Schematic.{is_compressed, from_nbt, schematic_row, root_row};
ghost use Rattle.sponge_schematic.specs.Root.{IsFileRow};

use crate::fault::WorldFault;
use nbt_tags::{Items, Named, NbtFault, Tag, decode};
use std::alloc::Global;

fn is_compressed(bytes: &[u8]) -> bool
    ensures { result ≡ is_compressed bytes.now }
{
    match bytes {
        [a, b, ..] => *a == 0x1F && *b == 0x8B,
        _ => false,
    }
}

/// The named tag that the bytes are.
#[tactic(auto, using(crate::proofs::Faults::nbt_refused))]
fn root(alloc: Global, bytes: &[u8]) -> Result<Named, WorldFault>
    requires { length bytes.now < 2 ^ 32 }
    ensures gives { Gives (λ x. x) result (from_nbt (decoded bytes.now)) }
    ensures found { IfOk result (λ root. Spells root bytes.now) }
    ensures full { IfOk result (λ root. IsWellFormed root) }
{
    match decode(alloc, bytes) {
        Ok(root) => Ok(root),
        Err(NbtFault::Memory) => Err(WorldFault::Memory),
        Err(fault) => Err(WorldFault::Nbt(fault)),
    }
}

/// The named tags of a Compound that is named `Schematic`.
#[tactic(auto, unfolding(crate::specs::Schematic::schematic_row))]
fn schematic_row(root: Named) -> Result<Items<Named>, WorldFault>
    ensures { Gives (λ x. x) result (schematic_row root) }
{
    let Named { name, tag } = root;
    if name.as_slice() != b"Schematic".as_slice() {
        return Err(WorldFault::NotSchematic);
    }
    match tag {
        Tag::Compound(row) => Ok(row),
        _ => Err(WorldFault::NotSchematic),
    }
}

/// The named tags of the root of a file.
#[tactic(auto, unfolding(crate::specs::Schematic::root_row))]
pub(crate) fn root_row(alloc: Global, bytes: &[u8]) -> Result<Items<Named>, WorldFault>
    requires { length bytes.now < 2 ^ 32 }
    ensures gives { Gives (λ x. x) result (root_row bytes.now) }
    ensures row { IfOk result IsFileRow }
{
    if is_compressed(bytes) {
        return Err(WorldFault::Compressed);
    }
    let root = root(alloc, bytes)?;
    schematic_row(root)
}
