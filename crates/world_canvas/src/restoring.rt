//! Recorded changes are taken back or done again.

ghost use Rattle.std.specs.Prelude.{◌≡◌, ℕ, ◌<◌, All, length, map, get_or, IfOk, OnErr};
ghost use Rattle.world_canvas.specs.Canvas.{shown};
ghost use Rattle.world_canvas.specs.Changes.{AreChangesNamed, AreChangesIn, IsRewritten};
ghost use Rattle.world_canvas.specs.Restoring.{restored, changes_taken, before_of, after_of, content_on, number_on, number_written, last_first, AreWritten};

use crate::canvas::Canvas;
use crate::cell_change::CellChange;
use crate::comparing::changes_between;
use memory::Memory;
use std::alloc::Global;

/// A side of a change.
#[derive(Clone, Copy, Debug)]
pub(crate) enum Side {
    Before,
    After,
}

impl Canvas {
    /// Takes the edits of these numbers back: each place that they changed gets the content from before the
    /// last of them that changed it. Returns the changes that this made. After `Memory` the world is as it was.
    pub fn take_back(
        &mut self,
        alloc: Global,
        edits: &[u32],
        kept: &[Vec<CellChange>],
    ) -> Result<Vec<CellChange>, Memory>
        requires edits { All (λ n. n < length kept.now) edits.now }
        requires named { All (λ cs. AreChangesNamed self.old.kinds cs.items) kept.now }
        requires within { All (λ cs. AreChangesIn self.old.area cs.items) kept.now }
        ensures taken_back { IfOk result (λ changes. IsRewritten (restored before_of (changes_taken self.old.kinds (map (λ cs. cs.items) kept.now) edits.now) (shown self.old)) self.old self.new changes.items) }
        ensures unchanged { OnErr result (self.new ≡ self.old) }
    {
        self.restore(alloc, edits, kept, Side::Before)
    }

    /// Does the edits of these numbers again: each place that they changed gets the content from after the
    /// last of them that changed it. Returns the changes that this made. After `Memory` the world is as it was.
    pub fn do_again(
        &mut self,
        alloc: Global,
        edits: &[u32],
        kept: &[Vec<CellChange>],
    ) -> Result<Vec<CellChange>, Memory>
        requires edits { All (λ n. n < length kept.now) edits.now }
        requires named { All (λ cs. AreChangesNamed self.old.kinds cs.items) kept.now }
        requires within { All (λ cs. AreChangesIn self.old.area cs.items) kept.now }
        ensures done_again { IfOk result (λ changes. IsRewritten (restored after_of (changes_taken self.old.kinds (map (λ cs. cs.items) kept.now) edits.now) (shown self.old)) self.old self.new changes.items) }
        ensures unchanged { OnErr result (self.new ≡ self.old) }
    {
        self.restore(alloc, edits, kept, Side::After)
    }

    /// Gives each place the content from this side of the last of these edits that changed it.
    fn restore(
        &mut self,
        alloc: Global,
        edits: &[u32],
        kept: &[Vec<CellChange>],
        side: Side,
    ) -> Result<Vec<CellChange>, Memory>
        requires edits { All (λ n. n < length kept.now) edits.now }
        requires named { All (λ cs. AreChangesNamed self.old.kinds cs.items) kept.now }
        requires within { All (λ cs. AreChangesIn self.old.area cs.items) kept.now }
        ensures restored { IfOk result (λ changes. IsRewritten (restored (content_on side) (changes_taken self.old.kinds (map (λ cs. cs.items) kept.now) edits.now) (shown self.old)) self.old self.new changes.items) }
        ensures unchanged { OnErr result (self.new ≡ self.old) }
    {
        let cells = cells_after(alloc, &self.cells, edits, kept, side)?;
        let changes = changes_between(alloc, &self.area, &self.kinds, &self.cells, &cells)?;
        self.cells = cells;
        Ok(changes)
    }
}

/// The numbers of the places once those that these edits changed have the number from this side of the last
/// one that changed them.
fn cells_after(
    alloc: Global,
    cells: &[u32],
    edits: &[u32],
    kept: &[Vec<CellChange>],
    side: Side,
) -> Result<Vec<u32>, Memory>
    requires edits { All (λ n. n < length kept.now) edits.now }
    requires within { All (λ changes. All (λ change. change.index < length cells.now) changes.items) kept.now }
    ensures { IfOk result (λ after. AreWritten side (last_first (map (λ changes. changes.items) kept.now) edits.now) cells.now after.items) }
{
    let mut after = Vec::from_slice(alloc, cells)?;
    put_all(&mut after, edits, kept, side);
    Ok(after)
}

/// Gives the places that these edits changed the numbers from this side of the last one that changed them.
fn put_all(cells: &mut [u32], edits: &[u32], kept: &[Vec<CellChange>], side: Side)
    requires edits { All (λ n. n < length kept.now) edits.now }
    requires within { All (λ changes. All (λ change. change.index < length cells.old) changes.items) kept.now }
    ensures { (i : ℕ) → i < length cells.old → get_or cells.new i 0 ≡ number_written side (last_first (map (λ changes. changes.items) kept.now) edits.now) cells.old i }
{
    for edit in edits {
        put(cells, &kept[*edit as usize], side);
    }
}

/// Gives the places of some changes the numbers from this side of them. Of two changes of one place the first
/// counts.
pub(crate) fn put(cells: &mut [u32], changes: &[CellChange], side: Side)
    requires { All (λ change. change.index < length cells.old) changes.now }
    ensures { (i : ℕ) → i < length cells.old → get_or cells.new i 0 ≡ number_written side changes.now cells.old i }
{
    for passed in 0..changes.len() {
        let change = changes[changes.len() - 1 - passed];
        cells[change.index as usize] = number_on(&change, side);
    }
}

/// The number on a side of a change.
fn number_on(change: &CellChange, side: Side) -> u32
    ensures { result ≡ number_on side change.now }
{
    match side {
        Side::Before => change.before,
        Side::After => change.after,
    }
}
