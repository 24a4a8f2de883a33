//! The block states of the drill.

ghost use Rattle.std.specs.Prelude.{◌≡◌, true, IfOk, codes, get_or, [], ◌∷◌, ◌%◌};
ghost use Rattle.edit_terms.specs.StateText.{air, is_block_name};
ghost use Rattle.world_gen.specs.Drill.{bare_state, stone, dirt, glass, grass_block, state_by};

use edit_terms::{BlockName, BlockState, Name, Properties};
use memory::Memory;
use std::alloc::Global;

/// The state of this name without properties; its copies share it.
pub(crate) fn bare_state(alloc: Global, name: &[u8]) -> Result<BlockState, Memory>
    requires { is_block_name name.now ≡ true }
    ensures { IfOk result (λ state. state ≡ bare_state name.now) }
{
    let bytes = Name::from_vec(Vec::from_slice(alloc, name)?);
    let Some(name) = BlockName::from_name(bytes) else {
        unreachable!()
    };
    let Some(properties) = Properties::from_pairs(Vec::new(alloc)) else {
        unreachable!()
    };
    Ok(BlockState::new(name, properties).share(alloc)?)
}

pub(crate) fn stone(alloc: Global) -> Result<BlockState, Memory>
    ensures { IfOk result (λ state. state ≡ stone) }
{
    bare_state(alloc, b"minecraft:stone")
}

pub(crate) fn dirt(alloc: Global) -> Result<BlockState, Memory>
    ensures { IfOk result (λ state. state ≡ dirt) }
{
    bare_state(alloc, b"minecraft:dirt")
}

pub(crate) fn glass(alloc: Global) -> Result<BlockState, Memory>
    ensures { IfOk result (λ state. state ≡ glass) }
{
    bare_state(alloc, b"minecraft:glass")
}

pub(crate) fn grass_block(alloc: Global) -> Result<BlockState, Memory>
    ensures { IfOk result (λ state. state ≡ grass_block) }
{
    bare_state(alloc, b"minecraft:grass_block")
}

pub(crate) fn air(alloc: Global) -> Result<BlockState, Memory>
    ensures { IfOk result (λ state. state ≡ air) }
{
    bare_state(alloc, b"minecraft:air")
}

/// One of four states, by a random word.
pub(crate) fn state_by(alloc: Global, word: u32) -> Result<BlockState, Memory>
    ensures { IfOk result (λ state. state ≡ state_by word) }
{
    match word % 4 {
        0 => stone(alloc),
        1 => dirt(alloc),
        2 => glass(alloc),
        _ => air(alloc),
    }
}
