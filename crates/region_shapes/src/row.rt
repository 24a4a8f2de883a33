//! Rows along x.

ghost use Rattle.std.specs.Prelude.{◌≡◌, ◌≤ℤ◌, ◌+ℤ◌, ◌-ℤ◌, pos, negsuc};

use edit_terms::Pos;

/// The positions of one height and one coordinate z. Rows beside positions may lie one farther out than
/// positions do.
#[derive(Clone, Copy, Debug)]
pub(crate) struct Row {
    pub(crate) y: i64,
    pub(crate) z: i64,
    ghost low_y: { negsuc 2147483648 ≤ℤ y },
    ghost high_y: { y ≤ℤ pos 2147483648 },
    ghost low_z: { negsuc 2147483648 ≤ℤ z },
    ghost high_z: { z ≤ℤ pos 2147483648 },
}

/// The row of a position.
pub(crate) fn row_at(p: &Pos) -> Row
    ensures y { result.y ≡ p.now.y }
    ensures z { result.z ≡ p.now.z }
{
    Row {
        y: i64::from(p.y),
        z: i64::from(p.z),
    }
}

/// The row to the north.
pub(crate) fn row_north(p: &Pos) -> Row
    ensures y { result.y ≡ p.now.y }
    ensures z { result.z ≡ p.now.z -ℤ pos 1 }
{
    Row {
        y: i64::from(p.y),
        z: i64::from(p.z) - 1,
    }
}

/// The row to the south.
pub(crate) fn row_south(p: &Pos) -> Row
    ensures y { result.y ≡ p.now.y }
    ensures z { result.z ≡ p.now.z +ℤ pos 1 }
{
    Row {
        y: i64::from(p.y),
        z: i64::from(p.z) + 1,
    }
}

/// The row above.
pub(crate) fn row_above(p: &Pos) -> Row
    ensures y { result.y ≡ p.now.y +ℤ pos 1 }
    ensures z { result.z ≡ p.now.z }
{
    Row {
        y: i64::from(p.y) + 1,
        z: i64::from(p.z),
    }
}

/// The row below.
pub(crate) fn row_below(p: &Pos) -> Row
    ensures y { result.y ≡ p.now.y -ℤ pos 1 }
    ensures z { result.z ≡ p.now.z }
{
    Row {
        y: i64::from(p.y) - 1,
        z: i64::from(p.z),
    }
}
