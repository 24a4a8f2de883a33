//! The rows of whole shapes.

ghost use Rattle.std.specs.Prelude.{◌≡◌, ◌+◌, ◌*◌, ◌<◌, ◌≤◌, ◌^◌, nat_abs};
ghost use Rattle.edit_terms.specs.Area.{is_from};
ghost use Rattle.edit_terms.specs.Region.{is_between, flat_distance, distance};
ghost use Rattle.region_shapes.specs.Interval.{IsNear};
ghost use Rattle.region_shapes.specs.Rows.{disc_row, reach_limit, cuboid_row, sphere_row, cylinder_row, shape_row, ball_row, tube_row, whole_row, IsBounded};

use crate::frame::between_x;
use crate::gaps::{squared_x, squared_y, squared_z};
use crate::interval::{Interval, around, nowhere};
use crate::root::root;
use crate::row::{Row, row_at};
use edit_terms::{Kind, Pos, Region, Selection};

/// The squared distance of two positions over x and z.
#[tactic(auto, using(crate::proofs::Squares::flat_distance_abs))]
pub(crate) fn flat_limit(first: &Pos, second: &Pos) -> u128
    ensures value { result ≡ nat_abs (flat_distance first.now second.now) }
    ensures small { result ≤ 36893488147419103232 }
{
    squared_x(first, second) + squared_z(first, &row_at(second))
}

/// The squared distance of two positions.
#[tactic(auto, using(crate::proofs::Squares::distance_abs, crate::proofs::Squares::flat_distance_abs))]
pub(crate) fn limit(first: &Pos, second: &Pos) -> u128
    ensures value { result ≡ nat_abs (distance first.now second.now) }
    ensures small { result ≤ 55340232221128654848 }
{
    flat_limit(first, second) + squared_y(first, &row_at(second))
}

fn reach_limit(radius: u32) -> u128
    ensures value { result ≡ reach_limit radius }
    ensures small { result ≤ 18446744073709551616 }
{
    let wide = u128::from(radius);
    wide * wide + wide
}

fn is_between_y(first: &Pos, second: &Pos, row: &Row) -> bool
    ensures { result ≡ is_between first.now.y second.now.y row.now.y }
{
    let a = i64::from(first.y);
    let b = i64::from(second.y);
    (a <= row.y && row.y <= b) || (b <= row.y && row.y <= a)
}

fn is_between_z(first: &Pos, second: &Pos, row: &Row) -> bool
    ensures { result ≡ is_between first.now.z second.now.z row.now.z }
{
    let a = i64::from(first.z);
    let b = i64::from(second.z);
    (a <= row.z && row.z <= b) || (b <= row.z && row.z <= a)
}

fn is_from_y(least: &Pos, height: u32, row: &Row) -> bool
    ensures { result ≡ is_from least.now.y height row.now.y }
{
    let low = i64::from(least.y);
    low <= row.y && row.y < low + i64::from(height)
}

fn disc_row(middle: &Pos, limit: u128, used: u128) -> Interval
    requires { limit < 2 ^ 68 }
    ensures value { result ≡ disc_row middle.now.x limit used }
    ensures near { IsNear result }
{
    if used <= limit {
        return around(middle.x, root(limit - used));
    }
    nowhere()
}

fn cuboid_row(first: &Pos, second: &Pos, row: &Row) -> Interval
    ensures value { result ≡ cuboid_row first.now second.now row.now.y row.now.z }
    ensures near { IsNear result }
{
    if is_between_y(first, second, row) && is_between_z(first, second, row) {
        return between_x(first, second);
    }
    nowhere()
}

fn sphere_row(first: &Pos, second: &Pos, row: &Row) -> Interval
    ensures value { result ≡ sphere_row first.now second.now row.now.y row.now.z }
    ensures near { IsNear result }
{
    disc_row(
        first,
        limit(first, second),
        squared_z(first, row) + squared_y(first, row),
    )
}

fn cylinder_row(first: &Pos, second: &Pos, row: &Row) -> Interval
    ensures value { result ≡ cylinder_row first.now second.now row.now.y row.now.z }
    ensures near { IsNear result }
{
    if is_between_y(first, second, row) {
        return disc_row(first, flat_limit(first, second), squared_z(first, row));
    }
    nowhere()
}

/// The row of a selection.
pub(crate) fn shape_row(s: &Selection, row: &Row) -> Interval
    ensures value { result ≡ shape_row s.now.kind s.now.first s.now.second row.now.y row.now.z }
    ensures near { IsNear result }
{
    match s.kind {
        Kind::Cuboid => cuboid_row(&s.first, &s.second, row),
        Kind::Sphere => sphere_row(&s.first, &s.second, row),
        Kind::Cylinder => cylinder_row(&s.first, &s.second, row),
    }
}

/// The row of a ball.
pub(crate) fn ball_row(centre: &Pos, radius: u32, row: &Row) -> Interval
    ensures value { result ≡ ball_row centre.now radius row.now.y row.now.z }
    ensures near { IsNear result }
{
    disc_row(
        centre,
        reach_limit(radius),
        squared_z(centre, row) + squared_y(centre, row),
    )
}

/// The row of an upright cylinder of so many heights from the centre's up.
pub(crate) fn tube_row(centre: &Pos, radius: u32, height: u32, row: &Row) -> Interval
    ensures value { result ≡ tube_row centre.now radius height row.now.y row.now.z }
    ensures near { IsNear result }
{
    if is_from_y(centre, height, row) {
        return disc_row(centre, reach_limit(radius), squared_z(centre, row));
    }
    nowhere()
}

/// The row of the whole shape that a region is, or is the walls, faces or shell of.
pub(crate) fn whole_row(region: &Region, row: &Row) -> Interval
    ensures value { result ≡ whole_row region.now row.now.y row.now.z }
    ensures near { IsNear result }
{
    match region {
        Region::Selected(s) => shape_row(s, row),
        Region::Walls(s) => shape_row(s, row),
        Region::Faces(s) => shape_row(s, row),
        Region::Ball { centre, radius, .. } => ball_row(centre, *radius, row),
        Region::Tube {
            centre,
            radius,
            height,
            ..
        } => tube_row(centre, *radius, *height, row),
    }
}

/// Does nothing: no squared distance that a region asks for is out of the root's range.
pub(crate) fn is_bounded(region: &Region)
    ensures { IsBounded region.now }
{
    match region {
        Region::Selected(s) => {
            let _limit = limit(&s.first, &s.second);
        }
        Region::Walls(s) => {
            let _limit = limit(&s.first, &s.second);
        }
        Region::Faces(s) => {
            let _limit = limit(&s.first, &s.second);
        }
        Region::Ball { radius, .. } => {
            let _limit = reach_limit(*radius);
        }
        Region::Tube { radius, .. } => {
            let _limit = reach_limit(*radius);
        }
    }
}
