ghost use Rattle.std.specs.Prelude.{◌≡◌, ◌&&◌, ◌||◌, ◌==◌, IfOk, bytes_eq, codes, List, true};
ghost use Rattle.edit_terms.specs.StateText.{State, IsState, is_air};
ghost use Rattle.edit_terms.specs.Held.{state_of};

use crate::block_name::BlockName;
use crate::properties::Properties;
use crate::try_copy::TryCopy;
use memory::Memory;
use std::alloc::Global;
use std::hash::{Hash, Hasher};
use std::marker::Model;
use std::sync::Arc;

/// A block state: a block's name and its properties.
///
/// It either owns them or shares them with its copies; nothing but time and room tells the two apart.
#[derive(Debug, Drop)]
pub struct BlockState {
    held: Held,
}

#[derive(Debug, Drop)]
enum Held {
    Own(Parts),
    Shared(Arc<Parts>),
}

#[derive(Debug, Drop)]
struct Parts {
    name: BlockName,
    properties: Properties,
}

impl Model for BlockState {
    ghost use Rattle.edit_terms.specs.StateText.{State};

    ghost Value = { State };

    ghost use Rattle.edit_terms.specs.Held.{state_held};

    ghost view = { λ s. state_held s.held };
}

impl BlockState {
    /// The state of that name and those properties. Takes no memory.
    pub fn new(name: BlockName, properties: Properties) -> BlockState
        ensures { result ≡ record { name = name; properties = properties } }
    {
        BlockState {
            held: Held::Own(Parts { name, properties }),
        }
    }

    /// The name with its namespace.
    pub fn name(&self) -> &[u8]
        ensures { result.now ≡ self.now.name }
    {
        match &self.held {
            Held::Own(parts) => parts.name.as_slice(),
            Held::Shared(parts) => parts.name.as_slice(),
        }
    }

    /// The properties.
    pub fn properties(&self) -> &Properties
        ensures { result.now ≡ self.now.properties }
    {
        match &self.held {
            Held::Own(parts) => &parts.properties,
            Held::Shared(parts) => &parts.properties,
        }
    }

    /// Does nothing: the name and the properties are of the form.
    pub fn well_formed(&self)
        ensures { IsState self.now }
    {
        match &self.held {
            Held::Own(parts) => parts.well_formed(),
            Held::Shared(parts) => parts.well_formed(),
        }
    }

    /// True exactly for air, cave air and void air, whatever their properties.
    pub fn is_air(&self) -> bool
        ensures { result ≡ is_air self.now }
    {
        let name = self.name();
        name == b"minecraft:air".as_slice()
            || name == b"minecraft:cave_air".as_slice()
            || name == b"minecraft:void_air".as_slice()
    }

    /// The same state, which shares its name and properties with its further copies.
    pub fn share(self, alloc: Global) -> Result<BlockState, Memory>
        ensures { IfOk result (λ shared. shared ≡ self) }
    {
        let shared = match self.held {
            Held::Own(parts) => Arc::new(alloc, parts)?,
            Held::Shared(parts) => parts,
        };
        Ok(BlockState {
            held: Held::Shared(shared),
        })
    }

    /// The same state, which shares its name and properties with further copies.
    pub fn copy(&self, alloc: Global) -> Result<BlockState, Memory>
        ensures { IfOk result (λ copied. copied ≡ self.now) }
    {
        let shared = match &self.held {
            Held::Own(parts) => Arc::new(alloc, parts.copy(alloc)?)?,
            Held::Shared(parts) => Arc::try_clone(parts)?,
        };
        Ok(BlockState {
            held: Held::Shared(shared),
        })
    }
}

impl Parts {
    fn well_formed(&self)
        ensures { IsState (state_of self.now) }
    {
        self.name.well_formed();
        self.properties.well_formed();
    }

    fn copy(&self, alloc: Global) -> Result<Parts, Memory>
        ensures { IfOk result (λ copied. (copied.name ≡ self.now.name) × (copied.properties ≡ self.now.properties)) }
    {
        Ok(Parts {
            name: self.name.copy(alloc)?,
            properties: self.properties.copy(alloc)?,
        })
    }
}

/// Two states are equal where name and properties are, owned or shared.
impl PartialEq for BlockState {
    ghost use Rattle.std.specs.Cmp.{partial_equiv_from_equiv};
    ghost use Rattle.edit_terms.specs.Same.{same_state, state_equivalence};

    ghost eq = { same_state };

    ghost laws = { partial_equiv_from_equiv state_equivalence };

    fn eq(&self, other: &BlockState) -> bool {
        self.name() == other.name() && self.properties().as_slice() == other.properties().as_slice()
    }
}

impl Eq for BlockState {
    ghost use Rattle.edit_terms.specs.Same.{state_equivalence};

    ghost laws = { state_equivalence };
}

impl Hash for BlockState {
    ghost use Rattle.std.specs.Prelude.{◌++◌};
    ghost use Rattle.std.specs.Hash as fed;
    ghost use Rattle.std.specs.Hash.{same_Alike};
    ghost use Rattle.edit_terms.specs.Same.{state_decides};

    ghost hash_input = { λ s. fed.slice fed.u8 s.name ++ fed.slice (λ p. fed.slice fed.u8 p.0 ++ fed.slice fed.u8 p.1) s.properties };

    ghost respects_eq = { (same_Alike (λ s. fed.slice fed.u8 s.name ++ fed.slice (λ p. fed.slice fed.u8 p.0 ++ fed.slice fed.u8 p.1) s.properties) state_decides).fed };

    fn hash<H: Hasher>(&self, state: &mut H) {
        self.name().hash(state);
        self.properties().as_slice().hash(state);
    }
}

impl TryCopy for BlockState {
    fn try_copy(&self, alloc: Global) -> Result<BlockState, Memory> {
        self.copy(alloc)
    }
}
