//! `prefixes WORDS` and `file-prefixes WORDS`: the faults of each proper prefix of a tag's or a world's file.
//!
//! Of the prefixes in order, those are told whose fault isn't that of the prefix before: by the prefix's length where
//! the fault is `Short` at that length, and else by the length, a slash and the fault.

use crate::faults::{tell_nbt, tell_world};
use crate::tags::TOO_MANY;
use crate::words::spell;
use case_lines::Answer;
use nbt_tags::{NbtFault, decode};
use sponge_schematic::{WorldFault, read_world};
use std::alloc::Global;

pub fn answer(alloc: Global, kind: &str, input: &str, answer: &mut Answer) -> Option<()> {
    let bytes = spell(alloc, input)?;
    let mut last = None;
    for length in 0..bytes.len() {
        let fault = fault_of(alloc, kind, &bytes[..length])?;
        if last != Some(fault) {
            tell_change(answer, length, fault)?;
        }
        last = Some(fault);
    }
    Some(())
}

/// The fault of a file or of a tag. None where there is none.
fn fault_of(alloc: Global, kind: &str, bytes: &[u8]) -> Option<WorldFault> {
    if bytes.len() > TOO_MANY {
        return None;
    }
    match kind {
        "prefixes" => decode(alloc, bytes).err().map(WorldFault::Nbt),
        _ => read_world(alloc, bytes).err(),
    }
}

fn tell_change(answer: &mut Answer, length: usize, fault: WorldFault) -> Option<()> {
    if !answer.is_empty() {
        answer.text(" ");
    }
    answer.number(length);
    match fault {
        WorldFault::Nbt(NbtFault::Short { at }) if at as usize == length => Some(()),
        WorldFault::Nbt(fault) => {
            answer.text("/");
            tell_nbt(answer, fault)
        }
        _ => {
            answer.text("/");
            tell_world(answer, fault)
        }
    }
}
