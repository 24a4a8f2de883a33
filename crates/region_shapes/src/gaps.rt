//! Squared distances along one axis.

ghost use Rattle.std.specs.Prelude.{◌≡◌, ◌*◌, ◌≤◌, nat_abs, ◌-ℤ◌};
ghost use Rattle.region_shapes.specs.Interval.{squared};

use crate::row::Row;
use edit_terms::Pos;

fn square(gap: u64) -> u128
    requires { gap ≤ 4294967296 }
    ensures value { result ≡ gap * gap }
    ensures small { result ≤ 18446744073709551616 }
{
    u128::from(gap) * u128::from(gap)
}

fn gap_y(p: &Pos, row: &Row) -> u64
    ensures value { result ≡ nat_abs (p.now.y -ℤ row.now.y) }
    ensures small { result ≤ 4294967296 }
{
    let y = i64::from(p.y);
    if y < row.y {
        return (row.y - y) as u64;
    }
    (y - row.y) as u64
}

fn gap_z(p: &Pos, row: &Row) -> u64
    ensures value { result ≡ nat_abs (p.now.z -ℤ row.now.z) }
    ensures small { result ≤ 4294967296 }
{
    let z = i64::from(p.z);
    if z < row.z {
        return (row.z - z) as u64;
    }
    (z - row.z) as u64
}

fn gap_x(p: &Pos, q: &Pos) -> u64
    ensures value { result ≡ nat_abs (p.now.x -ℤ q.now.x) }
    ensures small { result ≤ 4294967296 }
{
    let first = i64::from(p.x);
    let second = i64::from(q.x);
    if first < second {
        return (second - first) as u64;
    }
    (first - second) as u64
}

/// The squared distance of a position from a row along y.
pub(crate) fn squared_y(p: &Pos, row: &Row) -> u128
    ensures value { result ≡ squared p.now.y row.now.y }
    ensures small { result ≤ 18446744073709551616 }
{
    square(gap_y(p, row))
}

/// The squared distance of a position from a row along z.
pub(crate) fn squared_z(p: &Pos, row: &Row) -> u128
    ensures value { result ≡ squared p.now.z row.now.z }
    ensures small { result ≤ 18446744073709551616 }
{
    square(gap_z(p, row))
}

/// The squared distance of two positions along x.
pub(crate) fn squared_x(p: &Pos, q: &Pos) -> u128
    ensures value { result ≡ squared p.now.x q.now.x }
    ensures small { result ≤ 18446744073709551616 }
{
    square(gap_x(p, q))
}
