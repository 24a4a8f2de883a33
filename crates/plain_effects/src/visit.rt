//! The places of the list of a box's blocks that lie in a section.
ghost use Rattle.std.specs.Prelude.{◌≡◌, ◌+◌, ◌-◌, ◌*◌, ◌/◌, ◌%◌, ◌<◌, ◌≤◌, ◌&&◌, ◌++◌, ◌^◌, IfOk, OnOk};
ghost use Rattle.std.specs.List.{filter, range_with_len};
ghost use Rattle.edit_terms.specs.Area.{volume};
ghost use Rattle.plain_effects.specs.Sections.{is_in_section, is_in_span, span_size, IsSectionOf, IsSpanOf};

use crate::section::{Section, Span};
use edit_terms::WorldBox;
use memory::Memory;
use std::alloc::Global;

/// The places that lie in a section of the box, rising.
pub(crate) fn visited(alloc: Global, area: &WorldBox, section: &Section) -> Result<Vec<u32>, Memory>
    requires { IsSectionOf area.now section.now }
    ensures { IfOk result (λ places. places.items ≡ filter (is_in_section area.now section.now) (range_with_len 0 (volume area.now))) }
{
    let mut places = Vec::with_capacity(alloc, count(area, section))?;
    for row in 0..rows(area) {
        push_row(&mut places, area, section, row)?;
    }
    Ok(places)
}

/// How many blocks a section has.
#[tactic(auto, using(edit_terms::proofs::AreaLemmas::limits))]
fn count(area: &WorldBox, section: &Section) -> usize
    requires { IsSectionOf area.now section.now }
    ensures { result ≡ span_size section.now.x * span_size section.now.y * span_size section.now.z }
{
    area.well_formed();
    size(&section.x) * size(&section.y) * size(&section.z)
}

fn size(span: &Span) -> usize
    requires { IsSpanOf 65535 span.now }
    ensures value { result ≡ span_size span.now }
    ensures small { result ≤ 65535 }
{
    span.to.saturating_sub(span.from) as usize
}

/// How many rows along x a box has.
#[tactic(auto, using(edit_terms::proofs::AreaLemmas::limits))]
fn rows(area: &WorldBox) -> u32
    ensures { result ≡ area.now.height * area.now.length }
{
    area.well_formed();
    area.height() * area.length()
}

/// Appends the places of a row that lie in the section.
#[tactic(auto, using(crate::proofs::VisitLemmas::row_within, crate::proofs::VisitLemmas::row_passed, crate::proofs::VisitLemmas::row_visited))]
fn push_row(
    places: &mut Vec<u32>,
    area: &WorldBox,
    section: &Section,
    row: u32,
) -> Result<(), Memory>
    requires section { IsSectionOf area.now section.now }
    requires row { row < area.now.height * area.now.length }
    ensures { OnOk result (places.new.items ≡ places.old.items ++ filter (is_in_section area.now section.now) (range_with_len (row * area.now.width) area.now.width)) }
{
    area.well_formed();
    if !is_row_visited(area, section, row) {
        return Ok(());
    }
    let first = row * area.width();
    push_run(places, first + section.x.from, first + section.x.to)?;
    Ok(())
}

fn is_row_visited(area: &WorldBox, section: &Section, row: u32) -> bool
    requires { row < area.now.height * area.now.length }
    ensures { result ≡ (is_in_span section.now.y (row / area.now.length) && is_in_span section.now.z (row % area.now.length)) }
{
    is_in_span(&section.y, row / area.length()) && is_in_span(&section.z, row % area.length())
}

fn is_in_span(span: &Span, offset: u32) -> bool
    ensures { result ≡ is_in_span span.now offset }
{
    span.from <= offset && offset < span.to
}

/// Appends the numbers from one up to but without another.
fn push_run(places: &mut Vec<u32>, from: u32, to: u32) -> Result<(), Memory>
    ensures { OnOk result (places.new.items ≡ places.old.items ++ range_with_len from (to - from)) }
{
    for place in from..to {
        places.push(place)?;
    }
    Ok(())
}
