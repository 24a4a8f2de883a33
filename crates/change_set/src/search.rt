//! Searching runs for a position.
ghost use Rattle.std.specs.Prelude.{◌≡◌, ◌≢◌, ◌+◌, ◌<◌, ◌≤◌, ℕ, true, map, Some, slice_get, MatchOption, IfSome};
ghost use Rattle.edit_terms.specs.Area.{holds, index_of, position_of, volume};
ghost use Rattle.change_set.specs.Changes.{rises, positions, changes_of};
ghost use Rattle.edit_terms.specs.Chunk.{chunk_box, place_in_chunk};
ghost use Rattle.change_set.specs.Runs.{AreRunsFrom};
ghost use Rattle.change_set.specs.ContentRun.{as_run};
ghost use Rattle.change_set.specs.Cells.{place_or_end, StartsBehind, IsLastFrom};

use crate::run::Run;
use edit_terms::{Pos, WorldBox, chunk_box};

/// The place of a cell of this position in the list of the runs' cells. None exactly where no cell has it.
pub(crate) fn find_in_runs(area: &WorldBox, runs: &[Run], p: &Pos) -> Option<u32>
    requires each { AreRunsFrom area.now 0 (map as_run runs.now) }
    requires rising { rises area.now (positions (changes_of area.now (map as_run runs.now))) ≡ true }
    ensures { MatchOption result
        ((i : ℕ) → slice_get (positions (changes_of area.now (map as_run runs.now))) i ≢ Some p.now)
        (λ i. slice_get (positions (changes_of area.now (map as_run runs.now))) i ≡ Some p.now) }
{
    area.well_formed();
    let Some(place) = area.index_of(*p) else {
        return None;
    };
    let Some(run) = last_from(area, runs, place) else {
        return None;
    };
    match further_in(area, &run.first, run.length, p) {
        Some(further) => Some(run.start + further),
        None => None,
    }
}

/// The last run whose first cell doesn't stand behind a place of the box.
fn last_from<'a>(area: &WorldBox, runs: &'a [Run], place: u32) -> Option<&'a Run>
    requires each { AreRunsFrom area.now 0 (map as_run runs.now) }
    requires rising { rises area.now (positions (changes_of area.now (map as_run runs.now))) ≡ true }
    ensures { MatchOption result (StartsBehind area.now runs.now 0 place) (λ run. IsLastFrom area.now runs.now place run.now) }
{
    let behind = runs.partition_point(|run| place_or_end(area, &run.first) <= place);
    if behind == 0 {
        return None;
    }
    Some(&runs[behind - 1])
}

/// The place of a position in the box, and the box's end where it isn't of the box.
fn place_or_end(area: &WorldBox, p: &Pos) -> u32
    ensures { result ≡ place_or_end area.now p.now }
{
    match area.index_of(*p) {
        Some(place) => place,
        None => area.volume(),
    }
}

/// How far a cell of a stretch of a chunk's cells is behind the first one. None exactly where no cell of the
/// stretch has the position.
fn further_in(area: &WorldBox, first: &Pos, length: u32, p: &Pos) -> Option<u32>
    requires held { holds area.now first.now ≡ true }
    requires fits { place_in_chunk area.now first.now + length ≤ volume (chunk_box area.now first.now) }
    ensures value { MatchOption result
        ((j : ℕ) → j < length → position_of (chunk_box area.now first.now) (place_in_chunk area.now first.now + j) ≢ p.now)
        (λ j. position_of (chunk_box area.now first.now) (place_in_chunk area.now first.now + j) ≡ p.now) }
    ensures below { IfSome result (λ j. j < length) }
{
    area.well_formed();
    let part = chunk_box(area, first);
    let Some(from) = part.index_of(*first) else {
        return None;
    };
    let Some(place) = part.index_of(*p) else {
        return None;
    };
    if place < from {
        return None;
    }
    if place - from >= length {
        return None;
    }
    Some(place - from)
}
