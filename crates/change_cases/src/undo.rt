//! `kept WORD ..`: changes that are kept by command.
//!
//! `+PLAYER,STEP=N` keeps N changes of a command, unless some are kept, `?PLAYER,STEP` looks for a command's changes, and
//! `-PLAYER,STEP` takes them out. Each is told by how many changes there were before.

use crate::boxes::tell_between;
use crate::contents::contents_of;
use crate::lists::changed;
use case_lines::Answer;
use change_set::{Changes, Kept};
use edit_terms::{Pos, Source, WorldBox};
use std::alloc::Global;

pub fn answer(alloc: Global, input: &str, answer: &mut Answer) -> Option<()> {
    let mut kept = Kept::new(alloc);
    for word in input.split(' ') {
        tell_between(answer, " ");
        answer_word(alloc, &mut kept, word, answer)?;
    }
    Some(())
}

fn answer_word(alloc: Global, kept: &mut Kept, word: &str, answer: &mut Answer) -> Option<()> {
    if let Some(command) = word.strip_prefix("?") {
        tell_count(answer, kept.get(source_of(command)?));
        return Some(());
    }
    if let Some(command) = word.strip_prefix("-") {
        tell_count(answer, kept.take(source_of(command)?).as_ref());
        return Some(());
    }
    let (command, count) = word.strip_prefix("+")?.split_once('=')?;
    let changes = some_changes(alloc, count.parse::<u32>().ok()?)?;
    keep(kept, source_of(command)?, changes, answer)
}

fn source_of(text: &str) -> Option<Source> {
    let (player, step) = text.split_once(',')?;
    Some(Source {
        player: player.parse::<u32>().ok()?,
        step: step.parse::<u32>().ok()?,
    })
}

/// The changes of a row of so many blocks.
fn some_changes(alloc: Global, count: u32) -> Option<Changes> {
    let least = Pos { x: 0, y: 0, z: 0 };
    let area = WorldBox::new(least, count.max(1), 1, 1)?;
    let before = contents_of(alloc, ".")?;
    let after = contents_of(alloc, if count == 0 { "." } else { "s" })?;
    changed(alloc, &area, None, &before, &after).ok()
}

fn tell_count(answer: &mut Answer, changes: Option<&Changes>) {
    match changes {
        None => answer.text("none"),
        Some(changes) => answer.number(changes.len()),
    }
}

/// Keeps the changes of a command that has none.
fn keep(kept: &mut Kept, source: Source, changes: Changes, answer: &mut Answer) -> Option<()> {
    match kept.get(source) {
        Some(changes) => {
            tell_count(answer, Some(changes));
            Some(())
        }
        None => {
            kept.put(source, changes).ok()?;
            tell_count(answer, None);
            Some(())
        }
    }
}
