//! What a pattern puts in a position's place.
ghost use Rattle.std.specs.Prelude.{◌≡◌, ◌≢◌, option_copied, IfOk};
ghost use Rattle.edit_terms.specs.declared.pattern.Value.TheVariants.{Clipboard as OfClipboard};
ghost use Rattle.edit_terms.specs.Clipboard.{tiled};
ghost use Rattle.edit_terms.specs.Pattern.{applied, restated, placed, pattern_value};
ghost use Rattle.edit_terms.specs.World.{without_entity};
ghost use Rattle.clipboard_transform.specs.Bounds.{IsOnMap};
ghost use Rattle.plain_terms.specs.Clipboards.{some_clipboard};

use crate::choice::chosen_entry;
use crate::clipboard::Clipboard;
use crate::draw::draw_word;
use crate::restating::restated;
use block_state::apply;
use edit_terms::{BlockState, Content, Pattern, Pos, Value};
use memory::Memory;
use std::alloc::Global;

/// The use whose random word chooses a pattern's entry.
const PATTERN_USE: u32 = 8;

/// The content that a pattern gives for an old one at a position of the map, with this clipboard or an
/// empty one, under a run's seed and a ticket. What stays shares with the old content.
pub fn pattern_value(
    alloc: Global,
    pattern: &Pattern,
    copied: Option<&Clipboard>,
    seed: u64,
    ticket: u32,
    p: &Pos,
    old: &Content,
) -> Result<Content, Memory>
    requires { IsOnMap p.now }
    ensures { IfOk result (λ content. content ≡ pattern_value pattern.now (some_clipboard (option_copied copied.entry)) seed ticket p.now old.now) }
{
    let word = draw_word(seed, ticket, PATTERN_USE, p);
    match chosen_entry(word, pattern.entries.as_slice()) {
        None => old.copy(alloc),
        Some(entry) => placed(alloc, copied, p, &entry.value, old),
    }
}

/// What a value makes of the old content at a position, with this clipboard or an empty one.
fn placed(
    alloc: Global,
    copied: Option<&Clipboard>,
    p: &Pos,
    value: &Value,
    old: &Content,
) -> Result<Content, Memory>
    ensures { IfOk result (λ content. content ≡ placed (some_clipboard (option_copied copied.entry)) p.now value.now old.now) }
{
    match value {
        Value::Fixed(state) => bare(alloc, state),
        Value::Rename(_) => restyled(alloc, value, old),
        Value::Put(_) => restyled(alloc, value, old),
        Value::RenamePut(_) => restyled(alloc, value, old),
        Value::Clipboard => tiled(alloc, copied, p, old),
    }
}

/// A state without an entity.
fn bare(alloc: Global, state: &BlockState) -> Result<Content, Memory>
    ensures { IfOk result (λ content. content ≡ without_entity state.now) }
{
    Ok(Content {
        state: state.copy(alloc)?,
        entity: None,
    })
}

/// The old content with the state that a value gives.
fn restyled(alloc: Global, value: &Value, old: &Content) -> Result<Content, Memory>
    requires { value.now ≢ OfClipboard }
    ensures { IfOk result (λ content. content ≡ restated old.now (applied value.now old.now).state) }
{
    let state = apply(alloc, &old.state, value)?;
    restated(old, state)
}

/// The clipboard's content where it is repeated, and the old one without a clipboard.
fn tiled(
    alloc: Global,
    copied: Option<&Clipboard>,
    p: &Pos,
    old: &Content,
) -> Result<Content, Memory>
    ensures { IfOk result (λ content. content ≡ tiled (some_clipboard (option_copied copied.entry)) p.now old.now) }
{
    match copied {
        None => old.copy(alloc),
        Some(clipboard) => clipboard.tiled(alloc, p, old),
    }
}
