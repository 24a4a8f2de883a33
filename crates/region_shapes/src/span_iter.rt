ghost use Rattle.std.specs.Prelude.{◌≡◌, ◌*◌};
ghost use Rattle.std.specs.Iterator.{YieldsFirst, item_count};
ghost use Rattle.std.specs.List.{All};
ghost use Rattle.region_shapes.specs.Spans.{all_positions, region_positions, IsMaximal, RiseFrom};

use crate::row_spans::first_from;
use crate::span::Span;
use crate::whole::is_bounded;
use edit_terms::{Region, WorldBox};
use std::marker::Model;

/// The spans of a region in a box, which contracts see as the list of those that are still to come.
#[derive(Debug, Drop)]
pub struct SpanIter {
    region: Region,
    area: WorldBox,
    pending: Option<Span>,
    row: u32,
    rows: u32,
}

impl Model for SpanIter {
    ghost use Rattle.std.specs.Prelude.{◌≡◌, ◌*◌, List};
    ghost use Rattle.region_shapes.specs.declared.span.Span.{Span};
    ghost use Rattle.region_shapes.specs.SpansLeft.{spans_left};

    ghost Value = { List Span };

    ghost view = { λ s. spans_left s.region s.area s.pending s.row };

    ghost invariant = { λ s. s.rows ≡ s.area.height * s.area.length };
}

/// The spans of a region in a box. Their positions, span by span, are the region's positions in the box in
/// index order, and no span could be longer. So the spans rise: each begins behind the end of the one before it.
/// The work grows with the rows of the box, not with its blocks: for a small region in a large box ask for the
/// spans in its `bounds`.
#[tactic(auto, using(crate::proofs::BoxLemmas::spans_left_positions, crate::proofs::BoxLemmas::spans_left_maximal, crate::proofs::RiseLemmas::spans_left_rise))]
pub fn rows(region: &Region, area: &WorldBox) -> SpanIter
    ensures positions { all_positions result ≡ region_positions region.now area.now }
    ensures maximal { All (IsMaximal region.now area.now) result }
    ensures rising { RiseFrom area.now 0 result }
{
    is_bounded(region);
    area.well_formed();
    SpanIter {
        region: *region,
        area: *area,
        pending: None,
        row: 0,
        rows: count_of_rows(area),
    }
}

/// How many rows along x a box has.
fn count_of_rows(area: &WorldBox) -> u32
    ensures { result ≡ area.now.height * area.now.length }
{
    area.well_formed();
    area.height() * area.length()
}

impl Iterator for SpanIter {
    type Item = Span;

    ghost next_gives = { YieldsFirst (λ spans. spans) };

    ghost remaining = { item_count (λ spans. spans) };

    fn next(&mut self) -> Option<Span> {
        if let Some(span) = self.pending {
            self.pending = None;
            return Some(span);
        }
        match first_from(&self.region, &self.area, self.row, self.rows) {
            Some(found) => {
                self.row = found.next;
                self.pending = found.spans.second;
                Some(found.spans.first)
            }
            None => {
                self.row = self.rows;
                None
            }
        }
    }
}
