//! Square roots of whole numbers.

ghost use Rattle.std.specs.Prelude.{◌≡◌, ◌<◌, ◌≤◌, ◌^◌};
ghost use Rattle.edit_terms.specs.Frame.{root};

use std::num::{nearest_u64_to_f64, saturating_f64_to_u64};

/// The square root of a number below 2 ^ 68, rounded down.
#[tactic(auto, using(crate::proofs::Squares::root_of, crate::proofs::Squares::root_below))]
pub(crate) fn root(n: u128) -> u64
    requires { n < 2 ^ 68 }
    ensures value { result ≡ root n }
    ensures small { result < 2 ^ 34 }
{
    if n < 4_503_599_627_370_496 {
        return small_root(n as u64);
    }
    n.isqrt() as u64
}

/// That of a number below 2 ^ 52: the floating-point root, where the test says that it is the one.
#[tactic(auto, using(crate::proofs::Squares::root_of))]
fn small_root(n: u64) -> u64
    requires { n < 2 ^ 52 }
    ensures value { result ≡ root n }
{
    let guess = guessed_root(n);
    if guess * guess <= n && n < (guess + 1) * (guess + 1) {
        return guess;
    }
    n.isqrt()
}

#[inline]
fn guessed_root(n: u64) -> u64
    ensures { result ≤ 67108864 }
{
    saturating_f64_to_u64(nearest_u64_to_f64(n).sqrt()).min(67_108_864)
}
