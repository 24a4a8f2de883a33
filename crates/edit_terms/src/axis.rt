//! The three axes of a box, one coordinate at a time.

ghost use Rattle.std.specs.Prelude.{◌≡◌, ◌+◌, ◌-◌, ◌<◌, ◌≤◌, true, pos, negsuc, ◌+ℤ◌, ◌*ℤ◌, ◌≤ℤ◌, ◌<ℤ◌};
ghost use Rattle.edit_terms.specs.Area.{is_from, is_within, offset, sixteenth, columns};

use crate::pos::Pos;

/// The coordinate x behind so many from a position on.
fn end_x(least: &Pos, width: u32) -> i64
    ensures { result ≡ least.now.x +ℤ pos width }
{
    i64::from(least.x) + i64::from(width)
}

pub(crate) fn is_within_x(own: &Pos, whole: u32, least: &Pos, width: u32) -> bool
    ensures { result ≡ is_within own.now.x whole least.now.x width }
{
    own.x <= least.x && end_x(least, width) <= end_x(own, whole)
}

/// The coordinate y behind so many from a position on.
fn end_y(least: &Pos, height: u32) -> i64
    ensures { result ≡ least.now.y +ℤ pos height }
{
    i64::from(least.y) + i64::from(height)
}

pub(crate) fn is_within_y(own: &Pos, whole: u32, least: &Pos, height: u32) -> bool
    ensures { result ≡ is_within own.now.y whole least.now.y height }
{
    own.y <= least.y && end_y(least, height) <= end_y(own, whole)
}

/// The coordinate z behind so many from a position on.
fn end_z(least: &Pos, length: u32) -> i64
    ensures { result ≡ least.now.z +ℤ pos length }
{
    i64::from(least.z) + i64::from(length)
}

pub(crate) fn is_within_z(own: &Pos, whole: u32, least: &Pos, length: u32) -> bool
    ensures { result ≡ is_within own.now.z whole least.now.z length }
{
    own.z <= least.z && end_z(least, length) <= end_z(own, whole)
}

pub(crate) fn is_from_x(least: &Pos, width: u32, p: &Pos) -> bool
    ensures { result ≡ is_from least.now.x width p.now.x }
{
    let low = i64::from(least.x);
    let x = i64::from(p.x);
    low <= x && x < low + i64::from(width)
}

pub(crate) fn is_from_y(least: &Pos, height: u32, p: &Pos) -> bool
    ensures { result ≡ is_from least.now.y height p.now.y }
{
    let low = i64::from(least.y);
    let y = i64::from(p.y);
    low <= y && y < low + i64::from(height)
}

pub(crate) fn is_from_z(least: &Pos, length: u32, p: &Pos) -> bool
    ensures { result ≡ is_from least.now.z length p.now.z }
{
    let low = i64::from(least.z);
    let z = i64::from(p.z);
    low <= z && z < low + i64::from(length)
}

pub(crate) fn offset_x(least: &Pos, width: u32, p: &Pos) -> u32
    requires { is_from least.now.x width p.now.x ≡ true }
    ensures value { result ≡ offset least.now.x p.now.x }
    ensures below { result < width }
{
    (i64::from(p.x) - i64::from(least.x)) as u32
}

pub(crate) fn offset_y(least: &Pos, height: u32, p: &Pos) -> u32
    requires { is_from least.now.y height p.now.y ≡ true }
    ensures value { result ≡ offset least.now.y p.now.y }
    ensures below { result < height }
{
    (i64::from(p.y) - i64::from(least.y)) as u32
}

pub(crate) fn offset_z(least: &Pos, length: u32, p: &Pos) -> u32
    requires { is_from least.now.z length p.now.z ≡ true }
    ensures value { result ≡ offset least.now.z p.now.z }
    ensures below { result < length }
{
    (i64::from(p.z) - i64::from(least.z)) as u32
}

pub(crate) fn moved(from: &Pos, east: u32, up: u32, south: u32) -> Pos
    requires x { (from.now.x +ℤ pos east) <ℤ pos 2147483648 }
    requires y { (from.now.y +ℤ pos up) <ℤ pos 2147483648 }
    requires z { (from.now.z +ℤ pos south) <ℤ pos 2147483648 }
    ensures x { result.x ≡ from.now.x +ℤ pos east }
    ensures y { result.y ≡ from.now.y +ℤ pos up }
    ensures z { result.z ≡ from.now.z +ℤ pos south }
{
    Pos {
        x: (i64::from(from.x) + i64::from(east)) as i32,
        y: (i64::from(from.y) + i64::from(up)) as i32,
        z: (i64::from(from.z) + i64::from(south)) as i32,
    }
}

pub(crate) fn sixteenth_x(p: &Pos) -> i32
    ensures value { result ≡ sixteenth p.now.x }
    ensures low { (result *ℤ pos 16) ≤ℤ p.now.x }
    ensures high { p.now.x <ℤ (result *ℤ pos 16 +ℤ pos 16) }
{
    p.x.div_euclid(16)
}

pub(crate) fn sixteenth_z(p: &Pos) -> i32
    ensures value { result ≡ sixteenth p.now.z }
    ensures low { (result *ℤ pos 16) ≤ℤ p.now.z }
    ensures high { p.now.z <ℤ (result *ℤ pos 16 +ℤ pos 16) }
{
    p.z.div_euclid(16)
}

pub(crate) fn columns_x(least: &Pos, width: u32) -> u32
    requires some { 0 < width }
    requires few { width ≤ 65535 }
    requires fits { least.now.x <ℤ pos 33554432 }
    ensures value { result ≡ columns least.now.x width }
    ensures few { result ≤ 4097 }
{
    let last = last_x(least, width);
    let first = sixteenth_x(least);
    (sixteenth_x(&last) - first) as u32 + 1
}

pub(crate) fn column_x(least: &Pos, width: u32, p: &Pos) -> u32
    requires held { is_from least.now.x width p.now.x ≡ true }
    requires few { width ≤ 65535 }
    ensures value { result ≡ offset (sixteenth least.now.x) (sixteenth p.now.x) }
    ensures few { result ≤ 4096 }
{
    let first = sixteenth_x(least);
    (sixteenth_x(p) - first) as u32
}

pub(crate) fn columns_z(least: &Pos, length: u32) -> u32
    requires some { 0 < length }
    requires few { length ≤ 65535 }
    requires fits { least.now.z <ℤ pos 33554432 }
    ensures value { result ≡ columns least.now.z length }
    ensures few { result ≤ 4097 }
{
    let last = last_z(least, length);
    let first = sixteenth_z(least);
    (sixteenth_z(&last) - first) as u32 + 1
}

pub(crate) fn column_z(least: &Pos, length: u32, p: &Pos) -> u32
    requires held { is_from least.now.z length p.now.z ≡ true }
    requires few { length ≤ 65535 }
    ensures value { result ≡ offset (sixteenth least.now.z) (sixteenth p.now.z) }
    ensures few { result ≤ 4096 }
{
    let first = sixteenth_z(least);
    (sixteenth_z(p) - first) as u32
}

pub(crate) fn last_x(least: &Pos, width: u32) -> Pos
    requires some { 0 < width }
    requires few { width ≤ 65535 }
    requires fits { least.now.x <ℤ pos 33554432 }
    ensures { result.x ≡ least.now.x +ℤ pos (width - 1) }
{
    Pos {
        x: (i64::from(least.x) + i64::from(width - 1)) as i32,
        ..*least
    }
}

pub(crate) fn last_z(least: &Pos, length: u32) -> Pos
    requires some { 0 < length }
    requires few { length ≤ 65535 }
    requires fits { least.now.z <ℤ pos 33554432 }
    ensures { result.z ≡ least.now.z +ℤ pos (length - 1) }
{
    Pos {
        z: (i64::from(least.z) + i64::from(length - 1)) as i32,
        ..*least
    }
}
