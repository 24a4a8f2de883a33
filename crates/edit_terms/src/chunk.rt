//! The part of a chunk that lies in a world's box.
ghost use Rattle.std.specs.Prelude.{◌≡◌, ◌<◌, ◌≤◌, true, pos, ◌≤ℤ◌, ◌<ℤ◌, ◌+ℤ◌};
ghost use Rattle.std.specs.Int.{int_max, int_min};
ghost use Rattle.edit_terms.specs.Area.{is_from, holds, volume};
ghost use Rattle.edit_terms.specs.Chunk.{column_start, first_in_column, count_in_column, chunk_box};

use crate::pos::Pos;
use crate::world_box::WorldBox;

/// The blocks of the box that lie in the chunk of a position of it: a box themselves, whose index order is the order
/// that they have in the whole box. A chunk is a column of 16 by 16 blocks by x and z.
#[tactic(auto, using(crate::proofs::ChunkLemmas::part_small))]
pub fn chunk_box(area: &WorldBox, p: &Pos) -> WorldBox
    requires { holds area.now p.now ≡ true }
    ensures part { result ≡ chunk_box area.now p.now }
    ensures small { volume result ≤ 33554432 }
{
    area.well_formed();
    let least = area.least();
    let width = count_x(&least, area.width(), p);
    let length = count_z(&least, area.length(), p);
    let corner = corner(&least, p);
    match WorldBox::new(corner, width, area.height(), length) {
        Some(part) => part,
        None => unreachable!(),
    }
}

/// The least corner of the part.
fn corner(least: &Pos, p: &Pos) -> Pos
    ensures x { result.x ≡ first_in_column least.now.x p.now.x }
    ensures y { result.y ≡ least.now.y }
    ensures z { result.z ≡ first_in_column least.now.z p.now.z }
{
    Pos {
        x: least.x.max(start_x(p)),
        y: least.y,
        z: least.z.max(start_z(p)),
    }
}

/// The first coordinate of the column along x.
fn start_x(p: &Pos) -> i32
    ensures value { result ≡ column_start p.now.x }
    ensures low { result ≤ℤ p.now.x }
    ensures high { p.now.x <ℤ (result +ℤ pos 16) }
{
    p.x.div_euclid(16) * 16
}

/// The first coordinate of the column along z.
fn start_z(p: &Pos) -> i32
    ensures value { result ≡ column_start p.now.z }
    ensures low { result ≤ℤ p.now.z }
    ensures high { p.now.z <ℤ (result +ℤ pos 16) }
{
    p.z.div_euclid(16) * 16
}

/// The first coordinate along x of the column in the box.
fn first_x(least: &Pos, width: u32, p: &Pos) -> i64
    requires held { is_from least.now.x width p.now.x ≡ true }
    ensures value { result ≡ first_in_column least.now.x p.now.x }
    ensures low { result ≤ℤ p.now.x }
    ensures high { p.now.x <ℤ (result +ℤ pos 16) }
{
    i64::from(least.x.max(start_x(p)))
}

/// The coordinate along x that follows the last of the box.
fn box_end_x(least: &Pos, width: u32) -> i64
    ensures { result ≡ least.now.x +ℤ pos width }
{
    i64::from(least.x) + i64::from(width)
}

/// The coordinate along x that follows the last of the column.
fn column_end_x(p: &Pos) -> i64
    ensures value { result ≡ column_start p.now.x +ℤ pos 16 }
    ensures low { p.now.x <ℤ result }
    ensures high { result ≤ℤ (p.now.x +ℤ pos 16) }
{
    i64::from(start_x(p)) + 16
}

/// The coordinate along x that follows the last of the column in the box.
fn end_x(least: &Pos, width: u32, p: &Pos) -> i64
    requires held { is_from least.now.x width p.now.x ≡ true }
    ensures value { result ≡ int_min (least.now.x +ℤ pos width) (column_start p.now.x +ℤ pos 16) }
    ensures low { p.now.x <ℤ result }
    ensures high { result ≤ℤ (p.now.x +ℤ pos 16) }
{
    box_end_x(least, width).min(column_end_x(p))
}

/// How many blocks of the column the box has along x.
#[tactic(auto, using(crate::proofs::ChunkLemmas::count_between))]
fn count_x(least: &Pos, width: u32, p: &Pos) -> u32
    requires held { is_from least.now.x width p.now.x ≡ true }
    ensures value { result ≡ count_in_column least.now.x width p.now.x }
{
    let first = first_x(least, width, p);
    let end = end_x(least, width, p);
    (end - first) as u32
}

/// The first coordinate along z of the column in the box.
fn first_z(least: &Pos, length: u32, p: &Pos) -> i64
    requires held { is_from least.now.z length p.now.z ≡ true }
    ensures value { result ≡ first_in_column least.now.z p.now.z }
    ensures low { result ≤ℤ p.now.z }
    ensures high { p.now.z <ℤ (result +ℤ pos 16) }
{
    i64::from(least.z.max(start_z(p)))
}

/// The coordinate along z that follows the last of the box.
fn box_end_z(least: &Pos, length: u32) -> i64
    ensures { result ≡ least.now.z +ℤ pos length }
{
    i64::from(least.z) + i64::from(length)
}

/// The coordinate along z that follows the last of the column.
fn column_end_z(p: &Pos) -> i64
    ensures value { result ≡ column_start p.now.z +ℤ pos 16 }
    ensures low { p.now.z <ℤ result }
    ensures high { result ≤ℤ (p.now.z +ℤ pos 16) }
{
    i64::from(start_z(p)) + 16
}

/// The coordinate along z that follows the last of the column in the box.
fn end_z(least: &Pos, length: u32, p: &Pos) -> i64
    requires held { is_from least.now.z length p.now.z ≡ true }
    ensures value { result ≡ int_min (least.now.z +ℤ pos length) (column_start p.now.z +ℤ pos 16) }
    ensures low { p.now.z <ℤ result }
    ensures high { result ≤ℤ (p.now.z +ℤ pos 16) }
{
    box_end_z(least, length).min(column_end_z(p))
}

/// How many blocks of the column the box has along z.
#[tactic(auto, using(crate::proofs::ChunkLemmas::count_between))]
fn count_z(least: &Pos, length: u32, p: &Pos) -> u32
    requires held { is_from least.now.z length p.now.z ≡ true }
    ensures value { result ≡ count_in_column least.now.z length p.now.z }
{
    let first = first_z(least, length, p);
    let end = end_z(least, length, p);
    (end - first) as u32
}
