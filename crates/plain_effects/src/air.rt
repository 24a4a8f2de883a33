//! Air.
ghost use Rattle.std.specs.Prelude.{◌≡◌, IfOk};
ghost use Rattle.edit_terms.specs.StateText.{air};
ghost use Rattle.edit_terms.specs.World.{air_content};

use edit_terms::{BlockName, BlockState, Content, Items, Properties};
use memory::Memory;
use std::alloc::Global;

/// Air without properties and without an entity.
pub(crate) fn air(alloc: Global) -> Result<Content, Memory>
    ensures { IfOk result (λ content. content ≡ air_content) }
{
    Ok(Content {
        state: air_state(alloc)?,
        entity: None,
    })
}

fn air_state(alloc: Global) -> Result<BlockState, Memory>
    ensures { IfOk result (λ state. state ≡ air) }
{
    let bytes = Items::from_vec(Vec::from_slice(alloc, b"minecraft:air")?);
    let Some(name) = BlockName::from_name(bytes) else {
        unreachable!()
    };
    let Some(properties) = Properties::from_pairs(Vec::new(alloc)) else {
        unreachable!()
    };
    Ok(BlockState::new(name, properties))
}
