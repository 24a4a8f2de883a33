//! Names of blocks.

use crate::bytes::{bytes_of, put};
use case_lines::Answer;
use edit_terms::{BlockName, Name};
use std::alloc::Global;

/// `name TEXT`: whether the bytes of a text are a block's name. The name and its copy have those bytes then.
pub(crate) fn name(alloc: Global, input: &str, answer: &mut Answer) -> Option<()> {
    let bytes = bytes_of(alloc, input)?;
    let Some(name) = BlockName::from_name(name_of(alloc, &bytes)?) else {
        answer.text("no name");
        return Some(());
    };
    if name.as_slice() != bytes.as_slice() || !is_copy(alloc, &name)? {
        return None;
    }
    answer.text("a name");
    Some(())
}

fn is_copy(alloc: Global, name: &BlockName) -> Option<bool> {
    Some(name.copy(alloc).ok()?.as_slice() == name.as_slice())
}

pub(crate) fn name_of(alloc: Global, bytes: &[u8]) -> Option<Name> {
    Some(Name::from_vec(Vec::from_slice(alloc, bytes).ok()?))
}
