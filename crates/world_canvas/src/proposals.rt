//! Contents that are to stand in a world.

ghost use Rattle.std.specs.Prelude.{◌≡◌, [], ◌∷◌, ◌++◌, OnOk, OnErr, length};
ghost use Rattle.world_canvas.specs.Proposals.{proposals_shown, AreNamed};

use block_palette::Palette;
use edit_terms::Content;
use memory::Memory;
use std::alloc::Global;
use std::marker::Model;

/// A place of the list of a world's blocks and the number of the content that is to stand there.
#[derive(Clone, Copy, Debug)]
pub(crate) struct NumberedProposal {
    pub(crate) index: u32,
    pub(crate) number: u32,
}

/// The contents of proposals by number, and the proposals by the numbers of their contents.
#[derive(Drop)]
pub(crate) struct Parts<'a> {
    pub(crate) kinds: &'a Palette<Content>,
    pub(crate) items: &'a [NumberedProposal],
}

/// Contents that are to stand at places of the list of a world's blocks. Equal contents are kept once.
#[derive(Drop)]
pub struct Proposals {
    kinds: Palette<Content>,
    items: Vec<NumberedProposal>,
}

impl Model for Proposals {
    ghost use Rattle.std.specs.Prelude.{List};
    ghost use Rattle.world_canvas.specs.Proposals.{Proposal, proposals_shown, AreNamed};

    ghost Value = { List Proposal };

    ghost view = { λ p. proposals_shown p.kinds p.items.items };

    ghost invariant = { λ p. AreNamed p.kinds p.items.items };
}

impl Proposals {
    /// No proposals. Takes no memory.
    pub fn none(alloc: Global) -> Proposals
        ensures { result ≡ [] }
    {
        Proposals {
            kinds: Palette::new(alloc),
            items: Vec::new(alloc),
        }
    }

    /// Puts a proposal behind the others. After `Memory` they are as they were.
    pub fn push(&mut self, index: u32, content: Content) -> Result<(), Memory>
        ensures added { OnOk result (self.new ≡ self.old ++ record { index = index; content = content } ∷ []) }
        ensures unchanged { OnErr result (self.new ≡ self.old) }
    {
        if self.kinds.len() == u32::MAX {
            return Err(Memory);
        }
        self.items.try_reserve(1)?;
        let number = self.kinds.number(content)?;
        self.items.push(NumberedProposal { index, number })?;
        Ok(())
    }

    /// The contents by number, and the proposals by these numbers.
    pub(crate) fn parts(&self) -> Parts<'_>
        ensures shown { proposals_shown result.kinds.now result.items.now ≡ self.now }
        ensures named { AreNamed result.kinds.now result.items.now }
    {
        Parts {
            kinds: &self.kinds,
            items: &self.items,
        }
    }
}
