ghost use Rattle.std.specs.Prelude.{◌≡◌, IfOk};

use crate::block_state::BlockState;
use crate::items::Items;
use crate::properties::Properties;
use crate::try_copy::TryCopy;
use memory::Memory;
use std::alloc::Global;

/// How a mask term changes what stands behind it.
#[derive(Clone, Copy, Debug, PartialEq, Eq)]
pub enum Sign {
    /// `!`: it holds where that doesn't.
    Not,
    /// `>`: it holds where that holds one block below.
    Below,
    /// `<`: it holds where that holds one block above.
    Above,
}

/// What a mask term tests in the end.
#[derive(Debug, Drop)]
pub enum Leaf {
    /// `%n`: in the box by chance, in so many of 100 cases; never outside.
    Noise(u8),
    /// `#existing`: not air.
    Existing,
    /// `#selection`: in the player's selection.
    InSelection,
    /// `^[key=value]`: the state has all these properties.
    Has(Properties),
    /// The state has the name of one of these and all properties that this one lists.
    OneOf(Items<BlockState>),
}

/// A term of a mask: its signs, the outermost first, and what they stand before.
#[derive(Debug, Drop)]
pub struct Term {
    pub signs: Items<Sign>,
    pub leaf: Leaf,
}

/// A mask holds where all its terms do. Its noise leaves are at most 4.
#[derive(Debug, Drop)]
pub struct Mask {
    pub terms: Items<Term>,
}

impl Mask {
    /// The same mask once more; its lists are shared by further copies.
    pub fn copy(&self, alloc: Global) -> Result<Mask, Memory>
        ensures { IfOk result (λ copied. copied ≡ self.now) }
    {
        Ok(Mask {
            terms: self.terms.copy(alloc)?,
        })
    }
}

impl TryCopy for Sign {
    fn try_copy(&self, _alloc: Global) -> Result<Sign, Memory> {
        Ok(*self)
    }
}

impl TryCopy for Leaf {
    fn try_copy(&self, alloc: Global) -> Result<Leaf, Memory> {
        Ok(match self {
            Leaf::Noise(chance) => Leaf::Noise(*chance),
            Leaf::Existing => Leaf::Existing,
            Leaf::InSelection => Leaf::InSelection,
            Leaf::Has(properties) => Leaf::Has(properties.copy(alloc)?),
            Leaf::OneOf(states) => Leaf::OneOf(states.copy(alloc)?),
        })
    }
}

impl TryCopy for Term {
    fn try_copy(&self, alloc: Global) -> Result<Term, Memory> {
        Ok(Term {
            signs: self.signs.copy(alloc)?,
            leaf: self.leaf.try_copy(alloc)?,
        })
    }
}
