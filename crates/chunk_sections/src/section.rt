//! Sections of a chunk.
ghost use Rattle.std.specs.Prelude.{◌≡◌, ◌<◌, ◌≤◌, All, IfOk, OnOk, length, get_or};
ghost use Rattle.edit_terms.specs.StateText.{air};
ghost use Rattle.chunk_sections.specs.Section.{states_of, section_kinds, section_numbers, section_words};

use crate::numbering::numbered;
use crate::packed::Packed;
use crate::width::width_for;
use block_palette::Palette;
use edit_terms::BlockState;
use memory::Memory;
use std::alloc::Global;
use std::marker::Model;

/// The states of up to 4,096 blocks: their distinct states by first appearance, and the number of each
/// block's state among these, packed.
#[derive(Drop)]
pub struct Section {
    palette: Palette<BlockState>,
    cells: Packed,
}

impl Model for Section {
    ghost use Rattle.std.specs.Prelude.{List};
    ghost use Rattle.edit_terms.specs.StateText.{State};
    ghost use Rattle.chunk_sections.specs.Section.{IsSection, states_of};

    ghost Value = { List State };

    ghost view = { λ s. states_of s.palette s.cells.numbers };

    ghost invariant = { λ s. IsSection s.palette s.cells };
}

impl Section {
    /// The section whose blocks have these kinds.
    pub fn made(alloc: Global, kinds: &[BlockState], cells: &[u32]) -> Result<Section, Memory>
        requires within { All (λ kind. kind < length kinds.now) cells.now }
        requires few { length cells.now ≤ 4096 }
        ensures { IfOk result (λ s. s ≡ states_of kinds.now cells.now) }
    {
        let (palette, numbers) = numbered(alloc, kinds, cells)?;
        let cells = Packed::pack(alloc, width_for(palette.len()), &numbers)?;
        Ok(Section { palette, cells })
    }

    /// How many blocks there are.
    pub fn len(&self) -> u32
        ensures { result ≡ length self.now }
    {
        self.cells.len()
    }

    /// The state of a block.
    pub fn get(&self, i: u32) -> &BlockState
        requires { i < length self.now }
        ensures { result.now ≡ get_or self.now i air }
    {
        self.palette.entry(self.cells.get(i)).unwrap()
    }

    /// The distinct states, by first appearance.
    pub fn kinds(&self) -> &Palette<BlockState>
        ensures { result.now ≡ section_kinds self.now }
    {
        &self.palette
    }

    /// The number of each block's state among the distinct ones, into a buffer. After `Memory` the
    /// buffer has any content.
    pub fn unpack(&self, numbers: &mut Vec<u32>) -> Result<(), Memory>
        ensures { OnOk result (numbers.new.items ≡ section_numbers self.now) }
    {
        self.cells.unpack(numbers)
    }

    /// The packed words.
    pub fn words(&self) -> &[u64]
        ensures words { result.now ≡ section_words self.now }
        ensures few { length result.now ≤ 4096 }
    {
        self.cells.words()
    }
}
