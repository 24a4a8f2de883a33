//! Proposed contents are written down.

ghost use Rattle.std.specs.Prelude.{◌≡◌, ℕ, ◌<◌, All, length, get_or, map, IfOk, OnErr};
ghost use Rattle.edit_terms.specs.Area.{volume};
ghost use Rattle.edit_terms.specs.World.{BlockContent};
ghost use Rattle.world_canvas.specs.Proposals.{proposals_for};
ghost use Rattle.world_canvas.specs.Canvas.{shown, IsGrown, IsSameWorld};
ghost use Rattle.world_canvas.specs.Changes.{IsRewritten};
ghost use Rattle.world_canvas.specs.Writing.{cell_change, AreProposed};

use crate::canvas::Canvas;
use crate::cell_change::CellChange;
use crate::numbering::{contents_of, number_all};
use crate::proposals::{NumberedProposal, Proposals};
use crate::restoring::{Side, put};
use block_palette::Palette;
use edit_terms::Content;
use memory::Memory;
use std::alloc::Global;

impl Canvas {
    /// Gives the blocks the proposed contents, and returns the changes that this made. After `Memory` the world is as it
    /// was.
    pub fn write(&mut self, alloc: Global, proposals: &Proposals) -> Result<Vec<CellChange>, Memory>
        requires { All (λ p. p.index < volume self.old.area) proposals.now }
        ensures written { IfOk result (λ changes. (to : ℕ → BlockContent) → proposals.now ≡ proposals_for to (shown self.old) → IsRewritten to self.old self.new changes.items) }
        ensures unchanged { OnErr result (IsSameWorld self.old self.new) }
    {
        let changes = changes_of(alloc, &mut self.kinds, &self.cells, proposals)?;
        put(&mut self.cells, &changes, Side::After);
        Ok(changes)
    }
}

/// The changes that the proposals make of these cells. Their contents get numbers.
fn changes_of(
    alloc: Global,
    kinds: &mut Palette<Content>,
    cells: &[u32],
    proposals: &Proposals,
) -> Result<Vec<CellChange>, Memory>
    requires numbered { All (λ n. n < length kinds.old) cells.now }
    requires within { All (λ p. p.index < length cells.now) proposals.now }
    ensures grown { IsGrown kinds.old kinds.new }
    ensures changes { IfOk result (λ changes. AreProposed kinds.old kinds.new cells.now proposals.now changes.items) }
{
    let parts = proposals.parts();
    let contents = contents_of(alloc, parts.kinds)?;
    let numbers = number_all(alloc, kinds, &contents)?;
    let changes = cell_changes(alloc, cells, &numbers, parts.items)?;
    Ok(changes)
}

/// The changes of cells that kept proposals are, where the contents have got these numbers.
fn cell_changes(
    alloc: Global,
    cells: &[u32],
    numbers: &[u32],
    proposals: &[NumberedProposal],
) -> Result<Vec<CellChange>, Memory>
    requires within { All (λ p. p.index < length cells.now) proposals.now }
    requires named { All (λ p. p.number < length numbers.now) proposals.now }
    ensures { IfOk result (λ changes. changes.items ≡ map (cell_change cells.now numbers.now) proposals.now) }
{
    let mut changes = Vec::with_capacity(alloc, proposals.len())?;
    for proposed in proposals {
        changes.push(CellChange {
            index: proposed.index,
            before: cells[proposed.index as usize],
            after: numbers[proposed.number as usize],
        })?;
    }
    Ok(changes)
}
