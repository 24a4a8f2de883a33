//! Reading a state's text.
ghost use Rattle.std.specs.Prelude.{◌≡◌, ◌++◌, Ok, IfOk, IfErr, codes, is_some, position};
ghost use Rattle.edit_terms.specs.StateText.{IsStateText, is_colon, with_namespace, sorted_properties, state_reading};
ghost use Rattle.block_state.specs.Read.{IsFault, Gives, name_reading, properties_reading};

use crate::cuts::split_once;
use crate::fault::StateFault;
use crate::listing::read_behind;
use crate::sorting::with_properties;
use edit_terms::laws::states_and_faults;
use edit_terms::{BlockName, BlockState, Name, Properties};
use memory::Memory;
use std::alloc::Global;

/// Reads a block state's text: a name, or a name and properties in brackets, as
/// `oak_stairs[half=top,facing=east]`.
///
/// A name without a namespace is in `minecraft`. With its namespace it has at most 256 bytes. Properties
/// stand in any order, at most 16, each key once; empty brackets are as good as none. The copies of what is
/// handed out share its name and properties.
///
/// An error is the first fault of the text: the name's, the brackets', or that of the first bad property
/// from the left, which are looked at by their form, then for a repeated key, then by their number.
/// `Memory` where an allocation was refused.
pub fn read_state(alloc: Global, text: &[u8]) -> Result<BlockState, StateFault>
    ensures read { IfOk result (λ s. state_reading text.now ≡ Ok s) }
    ensures stands { IfOk result (λ s. IsStateText text.now s) }
    ensures fault { IfErr result (λ fault. IsFault (state_reading text.now) fault) }
{
    states_and_faults();
    let (name, listed) = read_parts(alloc, text)?;
    let sorted = with_properties(Vec::with_capacity(alloc, listed.len())?, listed)?;
    let properties = Properties::from_pairs(sorted).unwrap();
    let state = BlockState::new(name, properties);
    Ok(state.share(alloc)?)
}

/// The name, and the properties in their order in the text.
fn read_parts(alloc: Global, text: &[u8]) -> Result<(BlockName, Vec<(Name, Name)>), StateFault>
    ensures { Gives IsFault (λ parts. record { name = parts.0; properties = sorted_properties parts.1.items }) (state_reading text.now) result }
{
    let Some((name, rest)) = split_once(text, b'[') else {
        return Ok((read_name(alloc, text)?, Vec::new(alloc)));
    };
    let name = read_name(alloc, name)?;
    let listed = read_behind(alloc, rest)?;
    Ok((name, listed))
}

/// Reads the properties of what stands behind the opening bracket, as `half=top,facing=east]`, as those of a state.
pub fn read_properties(alloc: Global, rest: &[u8]) -> Result<Properties, StateFault>
    ensures { Gives IsFault (λ properties. properties) (properties_reading rest.now) result }
{
    states_and_faults();
    let listed = read_behind(alloc, rest)?;
    let sorted = with_properties(Vec::with_capacity(alloc, listed.len())?, listed)?;
    Ok(Properties::from_pairs(sorted).unwrap())
}

/// Reads a block's name, as that of a state without brackets.
pub fn read_name(alloc: Global, text: &[u8]) -> Result<BlockName, StateFault>
    ensures { Gives IsFault (λ name. name) (name_reading text.now) result }
{
    let Some(name) = BlockName::from_name(with_namespace(alloc, text)?) else {
        return Err(StateFault::BadName);
    };
    name.well_formed();
    Ok(name)
}

/// The name in the namespace `minecraft` where it names none.
fn with_namespace(alloc: Global, text: &[u8]) -> Result<Name, Memory>
    ensures { IfOk result (λ name. name ≡ with_namespace text.now) }
{
    if colon_of(text).is_some() {
        return Ok(Name::from_vec(Vec::from_slice(alloc, text)?));
    }
    let mut name = Vec::from_slice(alloc, b"minecraft:")?;
    name.extend_from_slice(text)?;
    Ok(Name::from_vec(name))
}

fn colon_of(text: &[u8]) -> Option<usize>
    ensures { result ≡ position is_colon text.now }
{
    text.iter().position(|b| *b == b':')
}
