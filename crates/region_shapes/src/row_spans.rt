//! The spans of one row of a region in a box.

ghost use Rattle.std.specs.Prelude.{◌≡◌, ◌-◌, ◌*◌, ◌/◌, ◌%◌, ◌<◌, ◌++◌, [], ◌∷◌, MatchOption, pos, negsuc, ◌+ℤ◌, ◌-ℤ◌, ◌≤ℤ◌, ◌<ℤ◌};
ghost use Rattle.std.specs.Option.{option_to_list};
ghost use Rattle.region_shapes.specs.Extents.{IsPartOfMap};
ghost use Rattle.region_shapes.specs.SpansLeft.{span_of, row_spans, numbered_spans, spans_from};
ghost use Rattle.region_shapes.specs.RowSpans.{listed};

use crate::bounding::{first, size};
use crate::extent::extent_of;
use crate::hollow::core_row;
use crate::interval::{Interval, above, below, common, is_empty};
use crate::row::row_at;
use crate::span::Span;
use crate::whole::whole_row;
use edit_terms::{Pos, Region, WorldBox};

/// The spans of a row that has some, from west to east: one or two.
#[derive(Drop)]
pub(crate) struct RowSpans {
    pub(crate) first: Span,
    pub(crate) second: Option<Span>,
}

/// The span of an interval's positions in a position's row. None exactly where there are none.
fn span_of(p: &Pos, interval: &Interval) -> Option<Span>
    requires { IsPartOfMap interval.now }
    ensures { option_to_list result ≡ span_of p.now.y p.now.z interval.now }
{
    if is_empty(interval) {
        return None;
    }
    let least = Pos {
        x: first(interval),
        y: p.y,
        z: p.z,
    };
    Some(Span {
        least,
        count: size(interval),
    })
}

fn one_or_two(first: Option<Span>, second: Option<Span>) -> Option<RowSpans>
    ensures { listed result ≡ option_to_list first ++ option_to_list second }
{
    match first {
        Some(first) => Some(RowSpans { first, second }),
        None => match second {
            Some(second) => Some(RowSpans {
                first: second,
                second: None,
            }),
            None => None,
        },
    }
}

/// The spans of a position's row. None exactly where it has none.
#[tactic(auto, using(crate::proofs::SpanLemmas::empty_outside))]
fn row_spans(region: &Region, area: &WorldBox, p: &Pos) -> Option<RowSpans>
    ensures { listed result ≡ row_spans region.now area.now p.now.y p.now.z }
{
    let cut = common(&whole_row(region, &row_at(p)), &extent_of(area).x);
    if is_empty(&cut) {
        return None;
    }
    let core = core_row(region, p);
    if is_empty(&core) {
        return one_or_two(span_of(p, &cut), None);
    }
    one_or_two(
        span_of(p, &below(&core, &cut)),
        span_of(p, &above(&core, &cut)),
    )
}

fn moved(from: &Pos, up: u32, south: u32) -> Pos
    requires y { (from.now.y +ℤ pos up) <ℤ pos 2147483648 }
    requires z { (from.now.z +ℤ pos south) <ℤ pos 2147483648 }
    ensures y { result.y ≡ from.now.y +ℤ pos up }
    ensures z { result.z ≡ from.now.z +ℤ pos south }
{
    Pos {
        x: from.x,
        y: (i64::from(from.y) + i64::from(up)) as i32,
        z: (i64::from(from.z) + i64::from(south)) as i32,
    }
}

/// The least position of a box's row of this number.
#[tactic(auto, using(crate::proofs::BoxLemmas::row_on_map, edit_terms::proofs::AreaLemmas::limits))]
fn row_corner(area: &WorldBox, row: u32) -> Pos
    requires { row < area.now.height * area.now.length }
    ensures y { result.y ≡ area.now.least.y +ℤ pos (row / area.now.length) }
    ensures z { result.z ≡ area.now.least.z +ℤ pos (row % area.now.length) }
{
    area.well_formed();
    let length = area.length();
    moved(&area.least(), row / length, row % length)
}

/// The spans of the row of this number, counted as the box's rows come in index order.
fn numbered_spans(region: &Region, area: &WorldBox, row: u32) -> Option<RowSpans>
    requires { row < area.now.height * area.now.length }
    ensures { listed result ≡ numbered_spans region.now area.now row }
{
    row_spans(region, area, &row_corner(area, row))
}

/// The spans of a row, and the number of the row behind it.
#[derive(Drop)]
pub(crate) struct Found {
    pub(crate) spans: RowSpans,
    pub(crate) next: u32,
}

/// The first row from this one on that has spans. None exactly where none has.
#[tactic(auto, using(crate::proofs::BoxLemmas::spans_from_end))]
pub(crate) fn first_from(region: &Region, area: &WorldBox, from: u32, rows: u32) -> Option<Found>
    requires { rows ≡ area.now.height * area.now.length }
    ensures { MatchOption result
        (spans_from region.now area.now from (rows - from) ≡ [])
        (λ f. spans_from region.now area.now from (rows - from) ≡ f.spans.first ∷ option_to_list f.spans.second ++ spans_from region.now area.now f.next (rows - f.next)) }
{
    for row in from..rows {
        if let Some(spans) = numbered_spans(region, area, row) {
            return Some(Found {
                spans,
                next: row + 1,
            });
        }
    }
    None
}
