//! Texts of patterns.

use crate::bytes::{MOST_BYTES, bytes_of, put};
use crate::faults::put_term_fault;
use crate::properties::put_properties;
use crate::states::put_state;
use block_state::TermFault;
use case_lines::Answer;
use edit_terms::{Entry, Pattern, Value};
use pattern_syntax::read_pattern;
use std::alloc::Global;

/// `pattern TEXT`: the pattern of a text, each entry with its weight and each word in full, or the fault.
pub(crate) fn pattern(alloc: Global, input: &str, answer: &mut Answer) -> Option<()> {
    match read(alloc, &bytes_of(alloc, input)?)? {
        Ok(pattern) => put_pattern(alloc, &pattern, answer),
        Err(fault) => {
            put_term_fault(alloc, fault, answer);
            Some(())
        }
    }
}

/// `pattern_copy TEXT`: the copy of the copy of a text's pattern.
pub(crate) fn copied(alloc: Global, input: &str, answer: &mut Answer) -> Option<()> {
    let pattern = pattern_of(alloc, input)?.copy(alloc).ok()?;
    put_pattern(alloc, &pattern.copy(alloc).ok()?, answer)
}

/// `entries TEXT`: how many entries the pattern of a text has, and the last, or the fault.
pub(crate) fn entries(alloc: Global, input: &str, answer: &mut Answer) -> Option<()> {
    match read(alloc, &bytes_of(alloc, input)?)? {
        Ok(pattern) => put_last(alloc, pattern.entries.as_slice(), answer),
        Err(fault) => {
            put_term_fault(alloc, fault, answer);
            Some(())
        }
    }
}

/// The pattern of a text that is one.
pub(crate) fn pattern_of(alloc: Global, text: &str) -> Option<Pattern> {
    read(alloc, text.as_bytes())?.ok()
}

/// The pattern of bytes, or their fault. None for more bytes than any text has.
fn read(alloc: Global, text: &[u8]) -> Option<Result<Pattern, TermFault>> {
    if text.len() > MOST_BYTES {
        return None;
    }
    Some(read_pattern(alloc, text))
}

fn put_last(alloc: Global, entries: &[Entry], answer: &mut Answer) -> Option<()> {
    answer.number(entries.len());
    answer.text(" to ");
    match entries.last() {
        Some(entry) => put_entry(alloc, entry, answer),
        None => {
            answer.fail();
            Some(())
        }
    }
}

/// Puts a pattern's entries with commas between.
pub(crate) fn put_pattern(alloc: Global, pattern: &Pattern, answer: &mut Answer) -> Option<()> {
    let Some((first, rest)) = pattern.entries.as_slice().split_first() else {
        answer.fail();
        return Some(());
    };
    put_entry(alloc, first, answer)?;
    for entry in rest {
        answer.text(",");
        put_entry(alloc, entry, answer)?;
    }
    Some(())
}

fn put_entry(alloc: Global, entry: &Entry, answer: &mut Answer) -> Option<()> {
    answer.number(entry.weight);
    answer.text("%");
    put_value(alloc, &entry.value, answer)
}

fn put_value(alloc: Global, value: &Value, answer: &mut Answer) -> Option<()> {
    match value {
        Value::Fixed(state) => {
            put_state(alloc, state, answer);
            Some(())
        }
        Value::Rename(name) => {
            put_edit(name.as_slice(), answer);
            Some(())
        }
        Value::Put(properties) => {
            answer.text("^");
            put_properties(properties, answer);
            Some(())
        }
        Value::RenamePut(state) => {
            put_edit(state.name(), answer);
            put_properties(state.properties(), answer);
            Some(())
        }
        Value::Clipboard => {
            answer.text("#clipboard");
            Some(())
        }
    }
}

/// Puts `^` and a name.
fn put_edit(name: &[u8], answer: &mut Answer) {
    answer.text("^");
    answer.bytes(name)
}
