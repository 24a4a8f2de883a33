//! Writing a state's text.
ghost use Rattle.std.specs.Prelude.{◌≡◌, ◌++◌, ◌∷◌, Ok, IfOk, OnOk};
ghost use Rattle.std.specs.List.{flat_map};
ghost use Rattle.edit_terms.specs.StateText.{comma, spelled_property, written_properties, written_state, state_reading};

use edit_terms::laws::{states_and_faults, written_form};
use edit_terms::{BlockState, Name};
use memory::Memory;
use std::alloc::Global;

/// The one written form of a state: its name with the namespace, and behind it, where there are properties,
/// those in brackets by rising key. Reading it gives the state again.
pub fn write_state(alloc: Global, state: &BlockState) -> Result<Vec<u8>, Memory>
    ensures written { IfOk result (λ text. text.items ≡ written_state state.now) }
    ensures again { IfOk result (λ text. state_reading text.items ≡ Ok state.now) }
{
    written_form();
    states_and_faults();
    state.well_formed();
    let mut text = Vec::from_slice(alloc, state.name())?;
    put_properties(&mut text, state.properties().as_slice())?;
    Ok(text)
}

/// The properties in brackets, and nothing where there are none.
fn put_properties(text: &mut Vec<u8>, pairs: &[(Name, Name)]) -> Result<(), Memory>
    ensures { OnOk result (text.new.items ≡ text.old.items ++ written_properties pairs.now) }
{
    let Some((first, rest)) = pairs.split_first() else {
        return Ok(());
    };
    text.push(b'[')?;
    put_property(text, first)?;
    put_further(text, rest)?;
    text.push(b']')?;
    Ok(())
}

/// The properties behind the first one, a comma before each.
fn put_further(text: &mut Vec<u8>, pairs: &[(Name, Name)]) -> Result<(), Memory>
    ensures { OnOk result (text.new.items ≡ text.old.items ++ flat_map (λ p. comma ∷ spelled_property p) pairs.now) }
{
    for pair in pairs {
        text.push(b',')?;
        put_property(text, pair)?;
    }
    Ok(())
}

fn put_property(text: &mut Vec<u8>, pair: &(Name, Name)) -> Result<(), Memory>
    ensures { OnOk result (text.new.items ≡ text.old.items ++ spelled_property pair.now) }
{
    text.extend_from_slice(pair.0.as_slice())?;
    text.push(b'=')?;
    text.extend_from_slice(pair.1.as_slice())?;
    Ok(())
}
