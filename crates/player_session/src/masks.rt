//! Copies of the masks that sessions and commands hold.

ghost use Rattle.std.specs.Prelude.{◌≡◌, IfOk};
ghost use Rattle.player_session.specs.Masks.{mask_set};

use edit_terms::{Command, Mask};
use memory::Memory;
use std::alloc::Global;

/// The same mask once more, if there is one; its lists are shared by further copies.
pub(crate) fn copied_mask(alloc: Global, mask: &Option<Mask>) -> Result<Option<Mask>, Memory>
    ensures { IfOk result (λ copied. copied ≡ mask.now) }
{
    match mask {
        Some(mask) => Ok(Some(mask.copy(alloc)?)),
        None => Ok(None),
    }
}

/// A copy of the mask that the command makes the mask of all edits. None of one that drops it, and of any
/// other command.
pub(crate) fn mask_set(alloc: Global, command: &Command) -> Result<Option<Mask>, Memory>
    ensures { IfOk result (λ mask. mask ≡ mask_set command.now) }
{
    match command {
        Command::Gmask { mask } => copied_mask(alloc, mask),
        _ => Ok(None),
    }
}
