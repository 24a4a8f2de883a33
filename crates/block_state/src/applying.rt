//! What a pattern's value makes of a state.
ghost use Rattle.std.specs.Prelude.{◌≡◌, ◌≢◌, Option, IfOk};
ghost use Rattle.edit_terms.specs.World.{EntityTags};
ghost use Rattle.edit_terms.specs.Pattern.{applied, overridden};

use crate::pairs::copied;
use crate::restating::restated;
use crate::sorting::with_properties;
use edit_terms::{BlockName, BlockState, Properties, Value};
use memory::Memory;
use std::alloc::Global;

/// The state that a pattern's value puts in the place of an old one; the entity of the old block has no say
/// in it. Where more than 16 properties would come out the old state stays. A state that stays as it is
/// shares with the old one.
///
/// What a clipboard puts there depends on the position, so it isn't asked here.
pub fn apply(alloc: Global, old: &BlockState, value: &Value) -> Result<BlockState, Memory>
    requires { value.now ≢ Value.Clipboard }
    ensures { IfOk result (λ s. (entity : Option EntityTags) → s ≡ (applied value.now (record { state = old.now; entity = entity })).state) }
{
    match value {
        Value::Fixed(state) => state.copy(alloc),
        Value::Rename(name) => renamed(alloc, old, name),
        Value::Put(properties) => overridden(alloc, old, old, properties),
        Value::RenamePut(state) => overridden(alloc, old, state, state.properties()),
        Value::Clipboard => unreachable!(),
    }
}

fn renamed(alloc: Global, old: &BlockState, name: &BlockName) -> Result<BlockState, Memory>
    ensures { IfOk result (λ s. s ≡ record { name = name.now; properties = old.now.properties }) }
{
    name.well_formed();
    let properties = old.properties().copy(alloc)?;
    restated(alloc, old, name.as_slice(), properties)
}

/// The old properties, these replaced or added, under the name of another state.
fn overridden(
    alloc: Global,
    old: &BlockState,
    named: &BlockState,
    properties: &Properties,
) -> Result<BlockState, Memory>
    ensures { IfOk result (λ s. s ≡ overridden old.now named.now.name properties.now) }
{
    old.well_formed();
    named.well_formed();
    properties.well_formed();
    let before = copied(alloc, old.properties().as_slice())?;
    let added = copied(alloc, properties.as_slice())?;
    let all = with_properties(before, added)?;
    match Properties::from_pairs(all) {
        None => old.copy(alloc),
        Some(properties) => restated(alloc, old, named.name(), properties),
    }
}
