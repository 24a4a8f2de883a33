//! Which properties and which name a state has, where None stands for the air outside a world's box.
ghost use Rattle.std.specs.Prelude.{◌≡◌, not, option_copied, bytes_eq};
ghost use Rattle.std.specs.Option.{unwrap_or};
ghost use Rattle.std.specs.List.{list_all, list_any};
ghost use Rattle.edit_terms.specs.StateText.{air, is_air};
ghost use Rattle.edit_terms.specs.Mask.{has_property, has_properties, is_like};

use edit_terms::{BlockState, Name};

/// True exactly for a state that doesn't count as air.
pub(crate) fn is_existing(state: Option<&BlockState>) -> bool
    ensures { result ≡ not (is_air (unwrap_or (option_copied state.entry) air)) }
{
    match state {
        None => false,
        Some(state) => !state.is_air(),
    }
}

/// True exactly where the state has all the listed properties.
pub(crate) fn has_properties(state: Option<&BlockState>, listed: &[(Name, Name)]) -> bool
    ensures { result ≡ has_properties (unwrap_or (option_copied state.entry) air).properties listed.now }
{
    listed.iter().all(|pair| has_property(state, pair))
}

/// True exactly where the state is like one of the listed ones.
pub(crate) fn is_like_any(state: Option<&BlockState>, listed: &[BlockState]) -> bool
    ensures { result ≡ list_any (is_like (unwrap_or (option_copied state.entry) air)) listed.now }
{
    listed.iter().any(|one| is_like(state, one))
}

fn is_like(state: Option<&BlockState>, listed: &BlockState) -> bool
    ensures { result ≡ is_like (unwrap_or (option_copied state.entry) air) listed.now }
{
    is_named(state, listed.name()) && has_properties(state, listed.properties().as_slice())
}

fn is_named(state: Option<&BlockState>, name: &[u8]) -> bool
    ensures { result ≡ bytes_eq (unwrap_or (option_copied state.entry) air).name name.now }
{
    match state {
        None => b"minecraft:air".as_slice() == name,
        Some(state) => state.name() == name,
    }
}

fn has_property(state: Option<&BlockState>, listed: &(Name, Name)) -> bool
    ensures { result ≡ has_property (unwrap_or (option_copied state.entry) air).properties listed.now }
{
    match state {
        None => false,
        Some(state) => match state.properties().get(listed.0.as_slice()) {
            None => false,
            Some(value) => value == listed.1.as_slice(),
        },
    }
}
