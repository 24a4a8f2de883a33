//! A state in another one's place.
ghost use Rattle.std.specs.Prelude.{◌≡◌, true, IfOk};
ghost use Rattle.edit_terms.specs.StateText.{is_block_name};
ghost use Rattle.edit_terms.specs.Same.{same_state};

use edit_terms::{BlockName, BlockState, Name, Properties};
use memory::Memory;
use std::alloc::Global;

/// The state of this name and these properties. Where it is the old one it shares with that.
pub(crate) fn restated(
    alloc: Global,
    old: &BlockState,
    name: &[u8],
    properties: Properties,
) -> Result<BlockState, Memory>
    requires { is_block_name name.now ≡ true }
    ensures { IfOk result (λ s. s ≡ record { name = name.now; properties = properties }) }
{
    if is_state_of(old, name, &properties) {
        return old.copy(alloc);
    }
    let name = Name::from_vec(Vec::from_slice(alloc, name)?);
    let name = BlockName::from_name(name).unwrap();
    BlockState::new(name, properties).share(alloc)
}

fn is_state_of(state: &BlockState, name: &[u8], properties: &Properties) -> bool
    ensures { result ≡ same_state state.now (record { name = name.now; properties = properties.now }) }
{
    state.name() == name && state.properties().as_slice() == properties.as_slice()
}
