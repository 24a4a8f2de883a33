//! What changed between two worlds of one canvas.

ghost use Rattle.std.specs.Prelude.{◌≡◌, ◌<◌, Option, Some, None, length, get_or, if◌then◌else◌, option_map, IfOk, IfSome};
ghost use Rattle.edit_terms.specs.Area.{volume};
ghost use Rattle.edit_terms.specs.Same.{same_content};
ghost use Rattle.edit_terms.specs.World.{air_content};
ghost use Rattle.plain_terms.specs.Shown.{IsNumbered, world_shown};
ghost use Rattle.run_terms.specs.Change.{change_at};
ghost use Rattle.world_canvas.specs.Changes.{change_shown, AreChangesBetween, IsChangeNamed};

use crate::cell_change::CellChange;
use crate::numbering::content;
use block_palette::Palette;
use edit_terms::{Content, WorldBox};
use memory::Memory;
use std::alloc::Global;

/// The changes from some numbers of the places' contents to others.
pub(crate) fn changes_between(
    alloc: Global,
    area: &WorldBox,
    kinds: &Palette<Content>,
    old: &[u32],
    new: &[u32],
) -> Result<Vec<CellChange>, Memory>
    requires old_numbered { IsNumbered area.now kinds.now old.now }
    requires new_numbered { IsNumbered area.now kinds.now new.now }
    ensures { IfOk result (λ changes. AreChangesBetween (world_shown area.now kinds.now old.now) (world_shown area.now kinds.now new.now) kinds.now changes.items) }
{
    let mut changes = Vec::new(alloc);
    for index in 0..area.volume() {
        let place = index as usize;
        if let Some(change) = change_at(kinds, index, old[place], new[place]) {
            changes.push(change)?;
        }
    }
    Ok(changes)
}

/// The change of a place from one number to another, if their contents differ.
fn change_at(kinds: &Palette<Content>, index: u32, before: u32, after: u32) -> Option<CellChange>
    requires before { before < length kinds.now }
    requires after { after < length kinds.now }
    ensures shown { option_map (change_shown kinds.now) result ≡
        (if same_content (get_or kinds.now before air_content) (get_or kinds.now after air_content) then None
        else Some (record { index = index; before = get_or kinds.now before air_content; after = get_or kinds.now after air_content })) }
    ensures named { IfSome result (λ c. IsChangeNamed kinds.now c) }
    ensures place { IfSome result (λ c. c.index ≡ index) }
{
    if is_same(kinds, before, after) {
        return None;
    }
    Some(CellChange {
        index,
        before,
        after,
    })
}

/// Whether two numbers name equal contents.
#[tactic(auto, using(crate::proofs::Differences::same_number))]
fn is_same(kinds: &Palette<Content>, before: u32, after: u32) -> bool
    requires before { before < length kinds.now }
    requires after { after < length kinds.now }
    ensures { result ≡ same_content (get_or kinds.now before air_content) (get_or kinds.now after air_content) }
{
    if before == after {
        return true;
    }
    content(kinds, before) == content(kinds, after)
}
