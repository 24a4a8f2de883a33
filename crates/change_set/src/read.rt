//! Reading a change or a cell by its place.
ghost use Rattle.std.specs.Prelude.{◌≡◌, true, ◌+◌, ◌-◌, ◌<◌, ◌≤◌, length, Some, slice_get, option_map};
ghost use Rattle.change_set.specs.ContentRun.{all_looked_up, AreNumbered};
ghost use Rattle.change_set.specs.Changes.{changes_of};
ghost use Rattle.change_set.specs.Runs.{AreRunsFrom, IsRunAt, lent_run, rest_of};
ghost use Rattle.std.specs.Arc.{arc_value};
ghost use Rattle.std.specs.Option.{option_copied};
ghost use Rattle.edit_terms.specs.Area.{holds, position_of, volume};
ghost use Rattle.edit_terms.specs.Chunk.{chunk_box, place_in_chunk};

use crate::contents::content_of;
use crate::run::Run;
use block_palette::Palette;
use edit_terms::{BlockState, Content, Entity, Pos, Stretch, WorldBox, chunk_box};
use std::sync::Arc;

/// A run that is lent with its contents.
#[derive(Drop)]
pub(crate) struct RunAt<'a> {
    pub(crate) first: Pos,
    pub(crate) start: u32,
    pub(crate) length: u32,
    pub(crate) before: &'a Content,
    pub(crate) after: &'a Content,
}

/// The run that has the change at a place of the list.
pub(crate) fn run_at<'a>(
    area: &WorldBox,
    contents: &'a Palette<Content>,
    runs: &[Run],
    i: u32,
) -> RunAt<'a>
    requires each { AreRunsFrom area.now 0 (all_looked_up contents.now runs.now) }
    requires numbered { AreNumbered contents.now runs.now }
    requires within { i < length (changes_of area.now (all_looked_up contents.now runs.now)) }
    ensures { IsRunAt area.now (changes_of area.now (all_looked_up contents.now runs.now)) i (lent_run result) }
{
    let behind = runs.partition_point(|run| run.start <= i);
    let run = &runs[behind - 1];
    RunAt {
        first: run.first,
        start: run.start,
        length: run.length,
        before: content_of(contents, run.before),
        after: content_of(contents, run.after),
    }
}

/// The position of a cell of a stretch of a chunk's cells, by the first one and how far it is behind that.
pub(crate) fn position_in_run(area: &WorldBox, first: &Pos, further: u32) -> Pos
    requires held { holds area.now first.now ≡ true }
    requires within { place_in_chunk area.now first.now + further < volume (chunk_box area.now first.now) }
    ensures { result ≡ position_of (chunk_box area.now first.now) (place_in_chunk area.now first.now + further) }
{
    let part = chunk_box(area, first);
    let Some(place) = part.index_of(*first) else {
        unreachable!();
    };
    match part.position(place + further) {
        Some(position) => position,
        None => unreachable!(),
    }
}

/// What is left of a stretch of a chunk's cells behind some of them, by the first one and how many they are.
pub(crate) fn rest_of(area: &WorldBox, first: &Pos, count: u32, further: u32) -> Stretch
    requires held { holds area.now first.now ≡ true }
    requires fits { place_in_chunk area.now first.now + count ≤ volume (chunk_box area.now first.now) }
    requires within { further < count }
    ensures { result ≡ rest_of area.now first.now count further }
{
    let part = chunk_box(area, first);
    let Some(place) = part.index_of(*first) else {
        unreachable!();
    };
    Stretch {
        part,
        start: place + further,
        count: count - further,
    }
}

/// The state of a content.
pub(crate) fn state_of(content: &Content) -> &BlockState
    ensures { result.now ≡ content.now.state }
{
    &content.state
}

/// The entity of a content.
pub(crate) fn entity_of(content: &Content) -> Option<&Arc<Entity>>
    ensures { option_map arc_value (option_copied result) ≡ content.now.entity }
{
    content.entity.as_ref()
}
