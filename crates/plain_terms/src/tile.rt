//! Boxes that are repeated in each direction.
ghost use Rattle.std.specs.Prelude.{◌≡◌, ◌≤ℤ◌, ◌<ℤ◌, ◌-ℤ◌, ◌+ℤ◌, pos};
ghost use Rattle.std.specs.Int.{int_rem_euclid};
ghost use Rattle.plain_terms.specs.Copies.{tile_between, tile_in, IsBox};

use clipboard_transform::RelativeBox;
use edit_terms::Pos;

/// The position of the box that a position has when the box is repeated in each direction: on each axis
/// from the least on by the remainder by the size, which isn't negative.
pub(crate) fn tile_in(b: &RelativeBox, p: &Pos) -> Pos
    requires { IsBox b.now }
    ensures { result ≡ tile_in b.now p.now }
{
    Pos {
        x: tile_x(b, p),
        y: tile_y(b, p),
        z: tile_z(b, p),
    }
}

fn tile_x(b: &RelativeBox, p: &Pos) -> i32
    requires { b.now.least.x ≤ℤ b.now.greatest.x }
    ensures { result ≡ tile_between b.now.least.x b.now.greatest.x p.now.x }
{
    (i64::from(b.least.x) + offset_x(b, p)) as i32
}

fn offset_x(b: &RelativeBox, p: &Pos) -> i64
    requires { b.now.least.x ≤ℤ b.now.greatest.x }
    ensures value { result ≡ int_rem_euclid p.now.x (b.now.greatest.x -ℤ b.now.least.x +ℤ pos 1) }
    ensures low { pos 0 ≤ℤ result }
    ensures near { result ≤ℤ pos 4294967295 }
    ensures high { (b.now.least.x +ℤ result) ≤ℤ pos 2147483647 }
{
    i64::from(p.x).rem_euclid(size_x(b))
}

fn size_x(b: &RelativeBox) -> i64
    requires { b.now.least.x ≤ℤ b.now.greatest.x }
    ensures value { result ≡ b.now.greatest.x -ℤ b.now.least.x +ℤ pos 1 }
    ensures some { pos 0 <ℤ result }
    ensures small { result ≤ℤ pos 4294967296 }
    ensures high { b.now.greatest.x ≤ℤ pos 2147483647 }
{
    i64::from(b.greatest.x) - i64::from(b.least.x) + 1
}

fn tile_y(b: &RelativeBox, p: &Pos) -> i32
    requires { b.now.least.y ≤ℤ b.now.greatest.y }
    ensures { result ≡ tile_between b.now.least.y b.now.greatest.y p.now.y }
{
    (i64::from(b.least.y) + offset_y(b, p)) as i32
}

fn offset_y(b: &RelativeBox, p: &Pos) -> i64
    requires { b.now.least.y ≤ℤ b.now.greatest.y }
    ensures value { result ≡ int_rem_euclid p.now.y (b.now.greatest.y -ℤ b.now.least.y +ℤ pos 1) }
    ensures low { pos 0 ≤ℤ result }
    ensures near { result ≤ℤ pos 4294967295 }
    ensures high { (b.now.least.y +ℤ result) ≤ℤ pos 2147483647 }
{
    i64::from(p.y).rem_euclid(size_y(b))
}

fn size_y(b: &RelativeBox) -> i64
    requires { b.now.least.y ≤ℤ b.now.greatest.y }
    ensures value { result ≡ b.now.greatest.y -ℤ b.now.least.y +ℤ pos 1 }
    ensures some { pos 0 <ℤ result }
    ensures small { result ≤ℤ pos 4294967296 }
    ensures high { b.now.greatest.y ≤ℤ pos 2147483647 }
{
    i64::from(b.greatest.y) - i64::from(b.least.y) + 1
}

fn tile_z(b: &RelativeBox, p: &Pos) -> i32
    requires { b.now.least.z ≤ℤ b.now.greatest.z }
    ensures { result ≡ tile_between b.now.least.z b.now.greatest.z p.now.z }
{
    (i64::from(b.least.z) + offset_z(b, p)) as i32
}

fn offset_z(b: &RelativeBox, p: &Pos) -> i64
    requires { b.now.least.z ≤ℤ b.now.greatest.z }
    ensures value { result ≡ int_rem_euclid p.now.z (b.now.greatest.z -ℤ b.now.least.z +ℤ pos 1) }
    ensures low { pos 0 ≤ℤ result }
    ensures near { result ≤ℤ pos 4294967295 }
    ensures high { (b.now.least.z +ℤ result) ≤ℤ pos 2147483647 }
{
    i64::from(p.z).rem_euclid(size_z(b))
}

fn size_z(b: &RelativeBox) -> i64
    requires { b.now.least.z ≤ℤ b.now.greatest.z }
    ensures value { result ≡ b.now.greatest.z -ℤ b.now.least.z +ℤ pos 1 }
    ensures some { pos 0 <ℤ result }
    ensures small { result ≤ℤ pos 4294967296 }
    ensures high { b.now.greatest.z ≤ℤ pos 2147483647 }
{
    i64::from(b.greatest.z) - i64::from(b.least.z) + 1
}
