ghost use Rattle.std.specs.Prelude.{◌≡◌, IfOk};

use crate::block_name::BlockName;
use crate::block_state::BlockState;
use crate::items::Items;
use crate::properties::Properties;
use crate::try_copy::TryCopy;
use memory::Memory;
use std::alloc::Global;

/// What an entry of a pattern puts in a position's place.
#[derive(Debug, Drop)]
pub enum Value {
    /// This state, without an entity.
    Fixed(BlockState),
    /// The old state's properties under this name.
    Rename(BlockName),
    /// The old state with these properties replaced or added.
    Put(Properties),
    /// The old state's properties under this state's name, with its properties replaced or added.
    RenamePut(BlockState),
    /// The player's clipboard, repeated in each direction.
    Clipboard,
}

/// One choice of a pattern, of a weight from 1 to 1,000,000.
#[derive(Debug, Drop)]
pub struct Entry {
    pub weight: u32,
    pub value: Value,
}

/// A weighted choice among 1 to 32 values.
#[derive(Debug, Drop)]
pub struct Pattern {
    pub entries: Items<Entry>,
}

impl Pattern {
    /// The same pattern once more; its entries are shared by further copies.
    pub fn copy(&self, alloc: Global) -> Result<Pattern, Memory>
        ensures { IfOk result (λ copied. copied ≡ self.now) }
    {
        Ok(Pattern {
            entries: self.entries.copy(alloc)?,
        })
    }
}

impl TryCopy for Value {
    fn try_copy(&self, alloc: Global) -> Result<Value, Memory> {
        Ok(match self {
            Value::Fixed(state) => Value::Fixed(state.copy(alloc)?),
            Value::Rename(name) => Value::Rename(name.copy(alloc)?),
            Value::Put(properties) => Value::Put(properties.copy(alloc)?),
            Value::RenamePut(state) => Value::RenamePut(state.copy(alloc)?),
            Value::Clipboard => Value::Clipboard,
        })
    }
}

impl TryCopy for Entry {
    fn try_copy(&self, alloc: Global) -> Result<Entry, Memory> {
        Ok(Entry {
            weight: self.weight,
            value: self.value.try_copy(alloc)?,
        })
    }
}
