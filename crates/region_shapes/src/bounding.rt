//! Bounding boxes cut by a world's box.

ghost use Rattle.std.specs.Prelude.{◌≡◌, ◌<◌, ◌≤◌, MatchOption, IfSome, true, false, pos, negsuc, ◌+ℤ◌, ◌-ℤ◌, ◌≤ℤ◌, ◌<ℤ◌};
ghost use Rattle.edit_terms.specs.Area.{volume, is_part};
ghost use Rattle.edit_terms.specs.Frame.{frame_of, common_box};
ghost use Rattle.region_shapes.specs.Interval.{size};
ghost use Rattle.region_shapes.specs.Extents.{is_without, IsPartOfMap, IsExtentOnMap};

use crate::extent::{Extent, common_extent, extent_of, is_without};
use crate::frame::frame_of;
use crate::interval::Interval;
use edit_terms::{Pos, Region, WorldBox};

/// The first number of an interval that has some.
pub(crate) fn first(interval: &Interval) -> i32
    requires map { IsPartOfMap interval.now }
    requires some { interval.now.from <ℤ interval.now.to }
    ensures { result ≡ interval.now.from }
{
    interval.from as i32
}

/// How many numbers an interval has that has some.
pub(crate) fn size(interval: &Interval) -> u32
    requires map { IsPartOfMap interval.now }
    requires some { interval.now.from <ℤ interval.now.to }
    ensures value { result ≡ size interval.now }
    ensures some { 0 < result }
{
    (interval.to - interval.from) as u32
}

/// The bounding box of a region, cut by a world's box. Walls, faces and hollow shapes have that of the
/// whole shape. None exactly where the two have no position in common.
#[tactic(auto, using(crate::proofs::BoundsLemmas::common_part))]
pub fn bounds(region: &Region, area: &WorldBox) -> Option<WorldBox>
    ensures cut { MatchOption result
        (volume (common_box (frame_of region.now) area.now) ≡ 0)
        (λ b. b ≡ common_box (frame_of region.now) area.now) }
    ensures part { IfSome result (λ b. is_part b area.now ≡ true) }
{
    let cut = cut_frame(region, area)?;
    cut.well_formed();
    Some(cut)
}

fn cut_frame(region: &Region, area: &WorldBox) -> Option<WorldBox>
    ensures { MatchOption result
        (volume (common_box (frame_of region.now) area.now) ≡ 0)
        (λ b. b ≡ common_box (frame_of region.now) area.now) }
{
    let cut = common_extent(&frame_of(region), &extent_of(area));
    if is_without(&cut) {
        return None;
    }
    area.well_formed();
    WorldBox::new(corner(&cut), size(&cut.x), size(&cut.y), size(&cut.z))
}

/// The first position of an extent that has some.
fn corner(extent: &Extent) -> Pos
    requires map { IsExtentOnMap extent.now }
    requires some { is_without extent.now ≡ false }
    ensures x { result.x ≡ extent.now.x.from }
    ensures y { result.y ≡ extent.now.y.from }
    ensures z { result.z ≡ extent.now.z.from }
{
    Pos {
        x: first(&extent.x),
        y: first(&extent.y),
        z: first(&extent.z),
    }
}
