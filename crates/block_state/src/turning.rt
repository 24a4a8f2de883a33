//! Turning and flipping a state.
ghost use Rattle.std.specs.Prelude.{◌≡◌, ◌%◌, if◌then◌else◌, map, IfOk};
ghost use Rattle.edit_terms.specs.Transform.{quarter_table, turned_property, turned_state, times};
ghost use Rattle.block_state.specs.Turn.{table_of, properties_by, turned_properties};

use crate::motion::Motion;
use crate::pairs::{copied, name_of};
use crate::restating::restated;
use crate::sorting::with_properties;
use crate::turned_words::{turned_key, turned_value};
use edit_terms::laws::turned_states_are_states;
use edit_terms::{BlockState, Name, Properties, Transform};
use memory::Memory;
use std::alloc::Global;

/// The state with its properties turned and flipped: the flips first, then the quarter turns, which count
/// modulo 4. A state that stays as it is shares with the old one.
pub fn transform(alloc: Global, state: &BlockState, t: &Transform) -> Result<BlockState, Memory>
    ensures { IfOk result (λ turned. turned ≡ turned_state t.now state.now) }
{
    turned_states_are_states();
    state.well_formed();
    let turned = turned_properties(alloc, state.properties().as_slice(), t)?;
    let properties = Properties::from_pairs(turned).unwrap();
    restated(alloc, state, state.name(), properties)
}

fn turned_properties(
    alloc: Global,
    pairs: &[(Name, Name)],
    t: &Transform,
) -> Result<Vec<(Name, Name)>, Memory>
    ensures { IfOk result (λ turned. turned.items ≡ turned_properties t.now pairs.now) }
{
    let pairs = copied(alloc, pairs)?;
    let pairs = flipped_if(alloc, t.flip_x, Motion::FlipX, pairs)?;
    let pairs = flipped_if(alloc, t.flip_y, Motion::FlipY, pairs)?;
    turned_quarters(alloc, t.turns % 4, pairs)
}

/// The properties by a flip, where it is done.
fn flipped_if(
    alloc: Global,
    is_done: bool,
    motion: Motion,
    pairs: Vec<(Name, Name)>,
) -> Result<Vec<(Name, Name)>, Memory>
    ensures { IfOk result (λ after. after.items ≡ (if is_done then properties_by (table_of motion) pairs.items else pairs.items)) }
{
    if is_done {
        properties_by(alloc, motion, &pairs)
    } else {
        Ok(pairs)
    }
}

/// The properties by so many quarter turns.
fn turned_quarters(
    alloc: Global,
    quarters: u8,
    pairs: Vec<(Name, Name)>,
) -> Result<Vec<(Name, Name)>, Memory>
    ensures { IfOk result (λ turned. turned.items ≡ times quarters (properties_by quarter_table) pairs.items) }
{
    let mut turned = pairs;
    for _quarter in 0..quarters {
        turned = properties_by(alloc, Motion::QuarterTurn, &turned)?;
    }
    Ok(turned)
}

/// The properties by a motion, by rising key again.
fn properties_by(
    alloc: Global,
    motion: Motion,
    pairs: &[(Name, Name)],
) -> Result<Vec<(Name, Name)>, Memory>
    ensures { IfOk result (λ after. after.items ≡ properties_by (table_of motion) pairs.now) }
{
    let turned = turned_each(alloc, motion, pairs)?;
    with_properties(Vec::with_capacity(alloc, turned.len())?, turned)
}

/// Each property by a motion.
fn turned_each(
    alloc: Global,
    motion: Motion,
    pairs: &[(Name, Name)],
) -> Result<Vec<(Name, Name)>, Memory>
    ensures { IfOk result (λ turned. turned.items ≡ map (turned_property (table_of motion)) pairs.now) }
{
    let mut turned = Vec::with_capacity(alloc, pairs.len())?;
    for pair in pairs {
        turned.push(turned_property(alloc, motion, pair)?)?;
    }
    Ok(turned)
}

fn turned_property(
    alloc: Global,
    motion: Motion,
    pair: &(Name, Name),
) -> Result<(Name, Name), Memory>
    ensures { IfOk result (λ turned. turned ≡ turned_property (table_of motion) pair.now) }
{
    let (key, value) = (pair.0.as_slice(), pair.1.as_slice());
    Ok((
        name_of(alloc, turned_key(motion, key))?,
        name_of(alloc, turned_value(motion, key, value))?,
    ))
}
