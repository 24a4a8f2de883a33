//! Squared distances.
ghost use Rattle.std.specs.Prelude.{◌≡◌, ◌*◌, ◌≤◌, nat_abs, pos, ◌-ℤ◌};
ghost use Rattle.edit_terms.specs.Region.{flat_distance, distance};
ghost use Rattle.plain_terms.specs.Places.{pos_of};

use crate::place::Place;
use edit_terms::Pos;

/// The squared distance of two places over x and z.
#[tactic(auto, using(edit_terms::proofs::RegionLemmas::flat_squares))]
pub(crate) fn flat_distance(a: &Pos, b: &Place) -> u128
    ensures value { flat_distance a.now (pos_of b.now) ≡ pos result }
    ensures small { result ≤ 9444732965739290427392 }
{
    squared_x(a, b) + squared_z(a, b)
}

/// The squared distance of two places.
pub(crate) fn distance(a: &Pos, b: &Place) -> u128
    ensures value { distance a.now (pos_of b.now) ≡ pos result }
    ensures small { result ≤ 14167099448608935641088 }
{
    squared_x(a, b) + squared_z(a, b) + squared_y(a, b)
}

/// The square of a number.
pub(crate) fn square(n: u64) -> u128
    requires { n ≤ 68719476736 }
    ensures value { result ≡ n * n }
    ensures small { result ≤ 4722366482869645213696 }
{
    u128::from(n) * u128::from(n)
}

fn squared_x(a: &Pos, b: &Place) -> u128
    ensures value { result ≡ nat_abs (a.now.x -ℤ b.now.x) * nat_abs (a.now.x -ℤ b.now.x) }
    ensures small { result ≤ 4722366482869645213696 }
{
    square(gap_x(a, b))
}

fn squared_y(a: &Pos, b: &Place) -> u128
    ensures value { result ≡ nat_abs (a.now.y -ℤ b.now.y) * nat_abs (a.now.y -ℤ b.now.y) }
    ensures small { result ≤ 4722366482869645213696 }
{
    square(gap_y(a, b))
}

fn squared_z(a: &Pos, b: &Place) -> u128
    ensures value { result ≡ nat_abs (a.now.z -ℤ b.now.z) * nat_abs (a.now.z -ℤ b.now.z) }
    ensures small { result ≤ 4722366482869645213696 }
{
    square(gap_z(a, b))
}

fn gap_x(a: &Pos, b: &Place) -> u64
    ensures value { result ≡ nat_abs (a.now.x -ℤ b.now.x) }
    ensures small { result ≤ 68719476736 }
{
    i64::from(a.x).abs_diff(b.x)
}

fn gap_y(a: &Pos, b: &Place) -> u64
    ensures value { result ≡ nat_abs (a.now.y -ℤ b.now.y) }
    ensures small { result ≤ 68719476736 }
{
    i64::from(a.y).abs_diff(b.y)
}

fn gap_z(a: &Pos, b: &Place) -> u64
    ensures value { result ≡ nat_abs (a.now.z -ℤ b.now.z) }
    ensures small { result ≤ 68719476736 }
{
    i64::from(a.z).abs_diff(b.z)
}
