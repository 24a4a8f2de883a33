//! Intervals of one coordinate.

ghost use Rattle.std.specs.Prelude.{◌≡◌, ◌+◌, ◌*◌, ◌<◌, ◌≤◌, ◌^◌, pos, negsuc, ◌+ℤ◌, ◌-ℤ◌, ◌≤ℤ◌, ◌<ℤ◌, FitsSigned};
ghost use Rattle.std.specs.Int.{w32, int_min};
ghost use Rattle.edit_terms.specs.Frame.{count_between};
ghost use Rattle.region_shapes.specs.Interval.{is_among, is_empty, size, nowhere, numbers_from, between, around, common, shifted, shrunk, below, above, IsNear};

/// The numbers from the one end up to but without the other; none where that isn't greater.
#[derive(Clone, Copy, Debug)]
pub struct Interval {
    pub from: i64,
    pub to: i64,
}

/// An interval without numbers.
pub(crate) fn nowhere() -> Interval
    ensures value { result ≡ nowhere }
    ensures near { IsNear result }
{
    Interval { from: 0, to: 0 }
}

/// So many numbers from one on.
pub fn numbers_from(low: i32, size: u32) -> Interval
    ensures value { result ≡ numbers_from low size }
    ensures near { IsNear result }
{
    let from = i64::from(low);
    Interval {
        from,
        to: from + i64::from(size),
    }
}

/// Two numbers and those between them.
pub(crate) fn between(first: i32, second: i32) -> Interval
    ensures value { result ≡ between first second }
    ensures near { IsNear result }
{
    ordered(i64::from(first), i64::from(second))
}

fn ordered(first: i64, second: i64) -> Interval
    requires first { FitsSigned w32 first }
    requires second { FitsSigned w32 second }
    ensures from { result.from ≡ int_min first second }
    ensures to { result.to ≡ int_min first second +ℤ pos (count_between first second) }
    ensures near { IsNear result }
{
    if first < second {
        return Interval {
            from: first,
            to: second + 1,
        };
    }
    Interval {
        from: second,
        to: first + 1,
    }
}

/// The numbers at most so far from one.
pub(crate) fn around(middle: i32, reach: u64) -> Interval
    requires { reach < 2 ^ 34 }
    ensures value { result ≡ around middle reach }
    ensures near { IsNear result }
{
    let from = i64::from(middle) - reach as i64;
    Interval {
        from,
        to: from + (2 * reach + 1) as i64,
    }
}

/// True exactly for one of the numbers.
pub fn is_among(interval: &Interval, number: i32) -> bool
    ensures { result ≡ is_among interval.now number }
{
    let number = i64::from(number);
    interval.from <= number && number < interval.to
}

/// True exactly where there is no number.
pub fn is_empty(interval: &Interval) -> bool
    ensures { result ≡ is_empty interval.now }
{
    interval.to <= interval.from
}

/// The numbers of both.
pub fn common(first: &Interval, second: &Interval) -> Interval
    ensures value { result ≡ common first.now second.now }
    ensures from { second.now.from ≤ℤ result.from }
    ensures to { result.to ≤ℤ second.now.to }
{
    Interval {
        from: first.from.max(second.from),
        to: first.to.min(second.to),
    }
}

/// The numbers so far above; below, where that is negative.
pub fn shifted(interval: &Interval, by: i64) -> Interval
    requires near { IsNear interval.now }
    requires low { negsuc 68719476735 ≤ℤ by }
    requires high { by ≤ℤ pos 68719476736 }
    ensures { result ≡ shifted by interval.now }
{
    Interval {
        from: interval.from + by,
        to: interval.to + by,
    }
}

/// The numbers without the first and the last.
pub(crate) fn shrunk(interval: &Interval) -> Interval
    requires { IsNear interval.now }
    ensures { result ≡ shrunk interval.now }
{
    Interval {
        from: interval.from + 1,
        to: interval.to - 1,
    }
}

/// The numbers below a part that isn't empty.
pub(crate) fn below(part: &Interval, interval: &Interval) -> Interval
    ensures value { result ≡ below part.now interval.now }
    ensures from { interval.now.from ≤ℤ result.from }
    ensures to { result.to ≤ℤ interval.now.to }
{
    Interval {
        from: interval.from,
        to: interval.to.min(part.from),
    }
}

/// The numbers above a part that isn't empty.
pub(crate) fn above(part: &Interval, interval: &Interval) -> Interval
    ensures value { result ≡ above part.now interval.now }
    ensures from { interval.now.from ≤ℤ result.from }
    ensures to { result.to ≤ℤ interval.now.to }
{
    Interval {
        from: interval.from.max(part.to),
        to: interval.to,
    }
}
