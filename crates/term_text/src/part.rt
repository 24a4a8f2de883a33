//! Block states, names and properties as parts of a term.
ghost use Rattle.std.specs.Prelude.{◌≡◌};
ghost use Rattle.edit_terms.specs.StateText.{state_reading};
ghost use Rattle.block_state.specs.Read.{Gives, name_reading, properties_reading};
ghost use Rattle.term_text.specs.Part.{IsPartFault, at_place, error_at};

use block_state::{StateFault, TermFault, read_name, read_properties, read_state};
use edit_terms::{BlockName, BlockState, Properties};
use std::alloc::Global;

/// The block state of a part that begins at this place of the term's text, or its first fault.
#[tactic(auto, using(crate::proofs::Parts::fault_at))]
pub fn state_at(alloc: Global, at: u32, text: &[u8]) -> Result<BlockState, TermFault>
    ensures { Gives IsPartFault (λ state. state) (at_place at (state_reading text.now)) result }
{
    match read_state(alloc, text) {
        Ok(state) => Ok(state),
        Err(fault) => Err(error_at(at, fault)),
    }
}

/// The block's name that such a part is, or its first fault.
#[tactic(auto, using(crate::proofs::Parts::fault_at))]
pub fn name_at(alloc: Global, at: u32, text: &[u8]) -> Result<BlockName, TermFault>
    ensures { Gives IsPartFault (λ name. name) (at_place at (name_reading text.now)) result }
{
    match read_name(alloc, text) {
        Ok(name) => Ok(name),
        Err(fault) => Err(error_at(at, fault)),
    }
}

/// The properties of what stands behind the opening bracket of such a part, or the first fault.
#[tactic(auto, using(crate::proofs::Parts::fault_at))]
pub fn properties_at(alloc: Global, at: u32, rest: &[u8]) -> Result<Properties, TermFault>
    ensures { Gives IsPartFault (λ properties. properties) (at_place at (properties_reading rest.now)) result }
{
    match read_properties(alloc, rest) {
        Ok(properties) => Ok(properties),
        Err(fault) => Err(error_at(at, fault)),
    }
}

/// The error of a part that begins at this place of the term's text. Want of memory has no place.
pub fn error_at(at: u32, fault: StateFault) -> TermFault
    ensures { result ≡ error_at at fault }
{
    match fault {
        StateFault::Memory => TermFault::Memory,
        _ => TermFault::State { at, fault },
    }
}
