//! Reading a schematic's palette.

ghost use Rattle.std.specs.Prelude.{◌≡◌, ◌<◌, ◌^◌, length, IfOk, OnOk, [], ◌∷◌, ◌++◌};
ghost use Rattle.edit_terms.specs.StateText.{state_reading};
ghost use Rattle.sponge_schematic.specs.Answers.{Gives};
ghost use Rattle.sponge_schematic.specs.Palette.{entry_state, entry_at, entries_from};

use crate::fault::{Field, WorldFault};
use crate::fields::int_of;
use block_state::{StateFault, read_state};
use edit_terms::BlockState;
use memory::Memory;
use nbt_tags::Named;
use std::alloc::Global;

/// The numbers of a palette's entries, and their states.
#[derive(Debug, Drop)]
pub(crate) struct Entries {
    pub(crate) numbers: Vec<i32>,
    pub(crate) states: Vec<BlockState>,
}

/// An entry of a palette.
#[derive(Debug, Drop)]
struct Entry {
    number: i32,
    state: BlockState,
}

/// The state that names the entry of that place.
#[tactic(auto, using(crate::proofs::Faults::state_refused))]
fn entry_state(alloc: Global, index: u32, text: &[u8]) -> Result<BlockState, WorldFault>
    ensures { Gives (λ x. x) result (entry_state index (state_reading text.now)) }
{
    match read_state(alloc, text) {
        Ok(state) => Ok(state),
        Err(StateFault::Memory) => Err(WorldFault::Memory),
        Err(fault) => Err(WorldFault::BadState { index, fault }),
    }
}

/// The entry of that place: its number, and then its state.
#[tactic(auto, unfolding(crate::specs::Palette::entry_at))]
fn entry_at(alloc: Global, index: u32, entry: &Named) -> Result<Entry, WorldFault>
    ensures { Gives (λ x. (x.number, x.state)) result (entry_at index entry.now) }
{
    let number = int_of(Field::Palette, &entry.tag)?;
    let state = entry_state(alloc, index, entry.name.as_slice())?;
    Ok(Entry { number, state })
}

impl Entries {
    /// One more entry.
    fn push(&mut self, entry: Entry) -> Result<(), Memory>
        ensures numbers { OnOk result (self.new.numbers.items ≡ self.old.numbers.items ++ entry.number ∷ []) }
        ensures states { OnOk result (self.new.states.items ≡ self.old.states.items ++ entry.state ∷ []) }
    {
        self.numbers.push(entry.number)?;
        self.states.push(entry.state)?;
        Ok(())
    }
}

fn with_room(alloc: Global, count: usize) -> Result<Entries, Memory>
    ensures numbers { IfOk result (λ x. x.numbers.items ≡ []) }
    ensures states { IfOk result (λ x. x.states.items ≡ []) }
{
    Ok(Entries {
        numbers: Vec::with_capacity(alloc, count)?,
        states: Vec::with_capacity(alloc, count)?,
    })
}

/// The entries of a palette's named tags, in file order.
pub(crate) fn read_entries(alloc: Global, row: &[Named]) -> Result<Entries, WorldFault>
    requires { length row.now < 2 ^ 32 }
    ensures gives { Gives (λ x. record { numbers = x.numbers.items; states = x.states.items }) result (entries_from 0 row.now) }
    ensures numbers { IfOk result (λ x. length x.numbers.items ≡ length row.now) }
    ensures states { IfOk result (λ x. length x.states.items ≡ length row.now) }
{
    let mut entries = with_room(alloc, row.len())?;
    for (index, tag) in row.iter().enumerate() {
        let entry = entry_at(alloc, index as u32, tag)?;
        entries.push(entry)?;
    }
    Ok(entries)
}
