//! One entry of a list of block entities.

ghost use Rattle.std.specs.Prelude.{◌≡◌, ◌+◌, ◌<◌, ◌≤◌, true, false, length, drop, find, IfOk, IfSome, MatchOption, FitsSigned, ◌+ℤ◌, position};
ghost use Rattle.std.specs.Int.{w32};
ghost use Rattle.std.specs.List.{position_or_len};
ghost use Rattle.std.specs.Option.{option_copied, SomeIff};
ghost use Rattle.edit_terms.specs.Area.{Area, holds, is_world_box, volume};
ghost use Rattle.edit_terms.specs.Clipboard.{placed_at};
ghost use Rattle.block_entities.specs.Entry.{row_of, is_pos, position_of_tag, local_position, place_from_corner, place_of, tags_of_entry};

use crate::Memory;
use edit_terms::{Entity, Pos, WorldBox};
use nbt_tags::{Named, Tag, encode_row};
use std::alloc::Global;

/// The index of the block that an entry names, if it names one of the box.
pub fn place_of(area: &WorldBox, entry: &Tag) -> Option<u32>
    ensures place { result ≡ place_of area.now entry.now }
    ensures below { IfSome result (λ index. index < volume area.now) }
{
    match local_position(entry) {
        None => None,
        Some(local) => place_from_corner(area, &local),
    }
}

/// The entity of an entry: its tags before and after Pos.
pub fn entity_of_entry(alloc: Global, entry: &Tag) -> Result<Entity, Memory>
    ensures { IfOk result (λ e. e ≡ tags_of_entry entry.now) }
{
    let row = row_of(entry);
    let at = pos_place(row);
    let before = encode_row(alloc, &row[..at])?;
    let after = encode_row(alloc, behind(row, at))?;
    Ok(Entity::new(before, after))
}

fn row_of(entry: &Tag) -> &[Named]
    ensures { result.now ≡ row_of entry.now }
{
    match entry {
        Tag::Compound(row) => row.as_slice(),
        _ => &[],
    }
}

fn is_pos(named: &Named) -> bool
    ensures { result ≡ is_pos named.now }
{
    named.name.as_slice() == b"Pos".as_slice()
}

/// The place of Pos in a row, or the row's length where it has none.
#[tactic(auto, using(crate::proofs::Places::length_no_position))]
fn pos_place(row: &[Named]) -> usize
    ensures place { result ≡ position_or_len is_pos row.now }
    ensures within { result ≤ length row.now }
{
    match pos_position(row) {
        Some(place) => place,
        None => row.len(),
    }
}

fn pos_position(row: &[Named]) -> Option<usize>
    ensures { result ≡ position is_pos row.now }
{
    row.iter().position(|named| is_pos(named))
}

/// What stands behind a place of a row.
fn behind(row: &[Named], at: usize) -> &[Named]
    ensures { result.now ≡ drop (at + 1) row.now }
{
    if at < row.len() { &row[at + 1..] } else { &[] }
}

fn pos_of(row: &[Named]) -> Option<&Named>
    ensures { option_copied result ≡ find is_pos row.now }
{
    row.iter().find(|named| is_pos(named))
}

fn position_of_tag(tag: &Tag) -> Option<Pos>
    ensures { result ≡ position_of_tag tag.now }
{
    match tag {
        Tag::IntArray(numbers) => match numbers.as_slice() {
            [x, y, z] => Some(Pos {
                x: *x,
                y: *y,
                z: *z,
            }),
            _ => None,
        },
        _ => None,
    }
}

fn local_position(entry: &Tag) -> Option<Pos>
    ensures { result ≡ local_position entry.now }
{
    match pos_of(row_of(entry)) {
        None => None,
        Some(named) => position_of_tag(&named.tag),
    }
}

/// The index of the block that is so far from the least corner of the box, if it is one of the box.
fn place_from_corner(area: &WorldBox, local: &Pos) -> Option<u32>
    ensures place { result ≡ place_from_corner area.now local.now }
    ensures below { IfSome result (λ index. index < volume area.now) }
{
    area.well_formed();
    match moved(&area.least(), local) {
        None => None,
        Some(p) => area.index_of(p),
    }
}

/// The position that is so far from another. None only where it lies in no world's box.
fn moved(from: &Pos, by: &Pos) -> Option<Pos>
    ensures { MatchOption result
        ((area : Area) → is_world_box area ≡ true → holds area (placed_at from.now by.now) ≡ false)
        (λ p. p ≡ placed_at from.now by.now) }
{
    let Some(x) = sum(&from.x, &by.x) else {
        return None;
    };
    let Some(y) = sum(&from.y, &by.y) else {
        return None;
    };
    let Some(z) = sum(&from.z, &by.z) else {
        return None;
    };
    Some(Pos { x, y, z })
}

fn sum(a: &i32, b: &i32) -> Option<i32>
    ensures { SomeIff result (FitsSigned w32 (a.now +ℤ b.now)) (a.now +ℤ b.now) }
{
    a.checked_add(*b)
}
