//! Parts of a box by offsets from its least corner.
ghost use Rattle.std.specs.Prelude.{◌≡◌, ℕ, true, ◌+ℤ◌, pos};
ghost use Rattle.region_shapes.specs.Extents.{IsPartOfMap};
ghost use Rattle.region_shapes.specs.Interval.{is_among, size};
ghost use Rattle.plain_effects.specs.Sections.{is_in_span, HasExtent, IsSectionOf, IsSpanOf};

use edit_terms::WorldBox;
use region_shapes::{Extent, Interval, common, extent_of, is_empty};

/// The offsets from one up to but without another along an axis.
#[derive(Clone, Copy, Debug)]
pub(crate) struct Span {
    pub(crate) from: u32,
    pub(crate) to: u32,
}

/// The blocks of a box whose offsets lie in spans on each axis.
#[derive(Clone, Copy, Debug)]
pub(crate) struct Section {
    pub(crate) x: Span,
    pub(crate) y: Span,
    pub(crate) z: Span,
}

/// The part of a box that has each of its blocks in an extent.
pub(crate) fn section_of(area: &WorldBox, extent: &Extent) -> Section
    ensures whole { HasExtent area.now result extent.now }
    ensures within { IsSectionOf area.now result }
{
    area.well_formed();
    let own = extent_of(area);
    Section {
        x: shared_offsets(&own.x, &extent.x),
        y: shared_offsets(&own.y, &extent.y),
        z: shared_offsets(&own.z, &extent.z),
    }
}

/// The offsets, from the first of a box's own coordinates on, of those that an interval has too.
#[tactic(auto, using(crate::proofs::SectionLemmas::nothing_shared))]
fn shared_offsets(own: &Interval, interval: &Interval) -> Span
    requires { IsPartOfMap own.now }
    ensures whole { (n : ℕ) → is_among own.now (own.now.from +ℤ pos n) ≡ true → is_among interval.now (own.now.from +ℤ pos n) ≡ true → is_in_span result n ≡ true }
    ensures within { IsSpanOf (size own.now) result }
{
    let shared = common(interval, own);
    if is_empty(&shared) {
        return Span { from: 0, to: 0 };
    }
    Span {
        from: (shared.from - own.from) as u32,
        to: (shared.to - own.from) as u32,
    }
}
