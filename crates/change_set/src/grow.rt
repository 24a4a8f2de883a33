//! What is asked of runs, and how the last of them grows.
ghost use Rattle.std.specs.Prelude.{◌≡◌, ◌+◌, ◌-◌, ◌^◌, ◌<◌, ◌≤◌, true, length, slice_get, IfSome};
ghost use Rattle.edit_terms.specs.Area.{holds, volume};
ghost use Rattle.edit_terms.specs.Chunk.{chunk_box, place_in_chunk};
ghost use Rattle.change_set.specs.ContentRun.{all_looked_up, AreNumbered, with_longer_end};
ghost use Rattle.change_set.specs.Runs.{follows, AreRunsFrom};
ghost use Rattle.change_set.specs.Changes.{changes_of, goes_on_behind};

use crate::contents::is_content;
use crate::run::Run;
use block_palette::Palette;
use edit_terms::{Content, Pos, WorldBox, chunk_box};

/// Whether the position is the next cell behind so many cells of a chunk, from the first one on.
pub(crate) fn follows(area: &WorldBox, first: &Pos, length: u32, p: &Pos) -> bool
    requires held { holds area.now first.now ≡ true }
    requires fits { place_in_chunk area.now first.now + length ≤ volume (chunk_box area.now first.now) }
    ensures { result ≡ follows area.now first.now length p.now }
{
    let part = chunk_box(area, first);
    let Some(from) = part.index_of(*first) else {
        return false;
    };
    match part.index_of(*p) {
        Some(place) => place == from + length,
        None => false,
    }
}

/// Whether a change at this position goes on where the runs end.
pub(crate) fn goes_on(
    area: &WorldBox,
    contents: &Palette<Content>,
    runs: &[Run],
    at: &Pos,
    before: &Content,
    after: &Content,
) -> bool
    requires each { AreRunsFrom area.now 0 (all_looked_up contents.now runs.now) }
    requires numbered { AreNumbered contents.now runs.now }
    ensures { result ≡ goes_on_behind area.now (changes_of area.now (all_looked_up contents.now runs.now)) (record { at = at.now; before = before.now; after = after.now }) }
{
    area.well_formed();
    let Some(run) = runs.last() else {
        return false;
    };
    if !follows(area, &run.first, run.length, at) {
        return false;
    }
    if !is_content(contents, run.before, before) {
        return false;
    }
    is_content(contents, run.after, after)
}

/// Makes the last run longer.
pub(crate) fn lengthen_last(runs: &mut Vec<Run>, more: u32)
    requires some { 0 < length runs.old.items }
    requires fits { IfSome (slice_get runs.old.items (length runs.old.items - 1)) (λ run. run.length + more < 2 ^ 32) }
    ensures { runs.new.items ≡ with_longer_end runs.old.items more }
{
    let last = runs.as_slice().len() - 1;
    let run = &mut runs[last];
    run.length += more;
}
