//! Why a command is refused: the causes in their order.

ghost use Rattle.std.specs.Prelude.{◌≡◌, ◌&&◌, ◌==◌, is_none, nat_le, length, false};
ghost use Rattle.std.specs.Option.{option_map_or};
ghost use Rattle.edit_terms.specs.Mask.{names_selection};
ghost use Rattle.run_terms.specs.Commands.{is_at_place, is_on_clipboard, is_undo, is_redo};
ghost use Rattle.run_terms.specs.Session.{selection_of, needs_selection, refusal_of};

use crate::commands::{
    is_at_place, is_edit, is_on_clipboard, is_on_selection, is_redo, is_undo, names_selection,
};
use crate::session::Session;
use edit_terms::{Command, Refusal};

impl Session {
    /// Why the command is refused, if it is.
    pub(super) fn refusal(&self, command: &Command) -> Option<Refusal>
        ensures { result ≡ refusal_of self.now command.now }
    {
        if self.lacks_selection(command) {
            return Some(Refusal::NoSelection);
        }
        if self.lacks_place(command) {
            return Some(Refusal::NoPlace);
        }
        if self.lacks_clipboard(command) {
            return Some(Refusal::NoClipboard);
        }
        if self.has_nothing_to_undo(command) {
            return Some(Refusal::NothingToUndo);
        }
        if self.has_nothing_to_redo(command) {
            return Some(Refusal::NothingToRedo);
        }
        None
    }

    fn lacks_selection(&self, command: &Command) -> bool
        ensures { result ≡ (needs_selection self.now command.now && is_none (selection_of self.now)) }
    {
        self.needs_selection(command) && self.selection().is_none()
    }

    fn lacks_place(&self, command: &Command) -> bool
        ensures { result ≡ (is_at_place command.now && is_none self.now.place) }
    {
        is_at_place(command) && self.place.is_none()
    }

    fn lacks_clipboard(&self, command: &Command) -> bool
        ensures { result ≡ (is_on_clipboard command.now && is_none self.now.clip) }
    {
        is_on_clipboard(command) && self.clip.is_none()
    }

    fn has_nothing_to_undo(&self, command: &Command) -> bool
        ensures { result ≡ (is_undo command.now && self.now.cursor == 0) }
    {
        is_undo(command) && self.history.cursor == 0
    }

    fn has_nothing_to_redo(&self, command: &Command) -> bool
        ensures { result ≡ (is_redo command.now && nat_le (length self.now.edits) self.now.cursor) }
    {
        is_redo(command) && self.history.is_at_end()
    }

    /// Whether the command works on the selection, or is an edit while the global mask names the selection.
    fn needs_selection(&self, command: &Command) -> bool
        ensures { result ≡ needs_selection self.now command.now }
    {
        is_on_selection(command) || is_edit(command) && self.is_masked_by_selection()
    }

    fn is_masked_by_selection(&self) -> bool
        ensures { result ≡ option_map_or names_selection self.now.global false }
    {
        match &self.global {
            Some(mask) => names_selection(mask),
            None => false,
        }
    }
}
