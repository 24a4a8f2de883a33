//! Which commands are edits, and which need a selection, a placement position or a clipboard.

ghost use Rattle.std.specs.Prelude.{◌≡◌};
ghost use Rattle.std.specs.List.{list_any};
ghost use Rattle.edit_terms.specs.Mask.{is_of_selection, names_selection};
ghost use Rattle.run_terms.specs.Commands.{is_on_selection, is_at_place, is_edit, is_clipboard, names_clipboard, is_on_clipboard, is_undo, is_redo};

use edit_terms::{Command, Leaf, Mask, Pattern, Value};

/// Whether the command works on the selection.
pub(crate) fn is_on_selection(command: &Command) -> bool
    ensures { result ≡ is_on_selection command.now }
{
    matches!(
        command,
        Command::Set { .. }
            | Command::Walls { .. }
            | Command::Faces { .. }
            | Command::Replace { .. }
            | Command::Stack { .. }
            | Command::Move { .. }
            | Command::Copy
            | Command::Cut
    )
}

/// Whether the command works at the placement position.
pub(crate) fn is_at_place(command: &Command) -> bool
    ensures { result ≡ is_at_place command.now }
{
    matches!(
        command,
        Command::Sphere { .. }
            | Command::Cyl { .. }
            | Command::Copy
            | Command::Cut
            | Command::Paste { .. }
    )
}

/// Whether the command enters the history and is limited by the global mask.
pub(crate) fn is_edit(command: &Command) -> bool
    ensures { result ≡ is_edit command.now }
{
    matches!(
        command,
        Command::Set { .. }
            | Command::Walls { .. }
            | Command::Faces { .. }
            | Command::Replace { .. }
            | Command::Sphere { .. }
            | Command::Cyl { .. }
            | Command::Stack { .. }
            | Command::Move { .. }
            | Command::Cut
            | Command::Paste { .. }
    )
}

/// Whether the command reads or turns the clipboard.
pub(crate) fn is_on_clipboard(command: &Command) -> bool
    ensures { result ≡ is_on_clipboard command.now }
{
    match command {
        Command::Set { pattern } => names_clipboard(pattern),
        Command::Walls { pattern } => names_clipboard(pattern),
        Command::Faces { pattern } => names_clipboard(pattern),
        Command::Replace { pattern, .. } => names_clipboard(pattern),
        Command::Sphere { pattern, .. } => names_clipboard(pattern),
        Command::Cyl { pattern, .. } => names_clipboard(pattern),
        Command::Paste { .. } | Command::Rotate { .. } | Command::Flip { .. } => true,
        _ => false,
    }
}

/// Whether the command takes edits back.
pub(crate) fn is_undo(command: &Command) -> bool
    ensures { result ≡ is_undo command.now }
{
    matches!(command, Command::Undo { .. })
}

/// Whether the command does edits again.
pub(crate) fn is_redo(command: &Command) -> bool
    ensures { result ≡ is_redo command.now }
{
    matches!(command, Command::Redo { .. })
}

/// Whether some term of the mask asks for the selection.
pub(crate) fn names_selection(mask: &Mask) -> bool
    ensures { result ≡ names_selection mask.now }
{
    mask.terms
        .as_slice()
        .iter()
        .any(|term| is_of_selection(&term.leaf))
}

fn is_of_selection(leaf: &Leaf) -> bool
    ensures { result ≡ is_of_selection leaf.now }
{
    matches!(leaf, Leaf::InSelection)
}

/// Whether some entry of the pattern is the clipboard.
fn names_clipboard(pattern: &Pattern) -> bool
    ensures { result ≡ names_clipboard pattern.now }
{
    pattern
        .entries
        .as_slice()
        .iter()
        .any(|entry| is_clipboard(&entry.value))
}

fn is_clipboard(value: &Value) -> bool
    ensures { result ≡ is_clipboard value.now }
{
    matches!(value, Value::Clipboard)
}
