//! The value of an entry.
ghost use Rattle.std.specs.Prelude.{◌≡◌};
ghost use Rattle.block_state.specs.Read.{Gives};
ghost use Rattle.pattern_syntax.specs.Read.{IsPatternFault};
ghost use Rattle.pattern_syntax.specs.Value.{has_opening, is_clipboard_word, word_reading, named_reading, caret_reading, value_reading};

use block_state::TermFault;
use edit_terms::Value;
use std::alloc::Global;
use term_text::{name_at, properties_at, state_at};

/// The value of a text that begins at this place.
pub(crate) fn read_value(alloc: Global, at: u32, text: &[u8]) -> Result<Value, TermFault>
    ensures { Gives IsPatternFault (λ value. value) (value_reading at text.now) result }
{
    match text {
        [] => Err(TermFault::Empty { at }),
        [b'#', word @ ..] => read_word(at, word),
        [b'^', rest @ ..] => read_caret(alloc, at, rest),
        _ => Ok(Value::Fixed(state_at(alloc, at, text)?)),
    }
}

/// The value of a word behind `#`.
fn read_word(at: u32, word: &[u8]) -> Result<Value, TermFault>
    ensures { Gives IsPatternFault (λ value. value) (word_reading at word.now) result }
{
    if is_clipboard_word(word) {
        return Ok(Value::Clipboard);
    }
    Err(TermFault::Unknown { at })
}

fn is_clipboard_word(word: &[u8]) -> bool
    ensures { result ≡ is_clipboard_word word.now }
{
    word == b"clipboard".as_slice() || word == b"copy".as_slice()
}

/// The value of what stands behind `^`: properties, a name, or both.
fn read_caret(alloc: Global, at: u32, text: &[u8]) -> Result<Value, TermFault>
    ensures { Gives IsPatternFault (λ value. value) (caret_reading at text.now) result }
{
    match text {
        [] => Err(TermFault::Unknown { at }),
        [b'[', rest @ ..] => Ok(Value::Put(properties_at(alloc, at, rest)?)),
        _ => read_named(alloc, at, text),
    }
}

/// The value of a name behind `^`, with properties where there is a bracket.
fn read_named(alloc: Global, at: u32, text: &[u8]) -> Result<Value, TermFault>
    ensures { Gives IsPatternFault (λ value. value) (named_reading at text.now) result }
{
    if has_opening(text) {
        let state = state_at(alloc, at, text)?;
        return Ok(Value::RenamePut(state));
    }
    let name = name_at(alloc, at, text)?;
    Ok(Value::Rename(name))
}

/// Whether a `[` stands in the text.
fn has_opening(text: &[u8]) -> bool
    ensures { result ≡ has_opening text.now }
{
    text.iter().any(|b| *b == b'[')
}
