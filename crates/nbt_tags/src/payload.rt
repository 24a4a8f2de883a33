//! The payloads of all tags, with those of the tags inside.

ghost use Rattle.std.specs.Prelude.{◌≡◌, IfOk};
ghost use Rattle.nbt_tags.specs.Spelling.{also, name_of};
ghost use Rattle.nbt_tags.specs.Reading.{Gives, payload_at, nested_at, list_in, counted_at, items_at, compound_in, whole_row_at, entry_at};
ghost use Rattle.nbt_tags.specs.Taken.{is_taken};

use crate::arrays::{
    byte_array_at, byte_tag_at, copied, double_tag_at, float_tag_at, int_array_at, int_tag_at,
    long_array_at, long_tag_at, short_tag_at, string_at,
};
use crate::ending::Ending;
use crate::fields::{element_at, i32_at};
use crate::flaw::{Cause, Failure, flaw_at};
use crate::kind::{Kind, kind_of};
use crate::names::{fresh_at, next_at};
use crate::room::with_room;
use crate::tag::{Named, Tag};
use sqlite_items::Items;
use std::alloc::Global;
use std::collections::BTreeSet;

/// The payload of a tag of that kind, in which at most so many levels of lists and compounds stand in
/// one another.
#[cycle(payload)]
#[tactic(auto, unfolding(crate::specs::Reading::content))]
pub fn payload(
    alloc: Global,
    levels: usize,
    kind: Kind,
    bytes: &[u8],
) -> Result<(Tag, &[u8]), Failure>
    ensures { Gives (λ x. (x.0, x.1.now)) result (payload_at levels kind bytes.now) }
{
    match kind {
        Kind::Byte => byte_tag_at(bytes),
        Kind::Short => short_tag_at(bytes),
        Kind::Int => int_tag_at(bytes),
        Kind::Long => long_tag_at(bytes),
        Kind::Float => float_tag_at(bytes),
        Kind::Double => double_tag_at(bytes),
        Kind::ByteArray => byte_array_at(alloc, bytes),
        Kind::Str => string_at(alloc, bytes),
        Kind::List => list(alloc, levels, bytes),
        Kind::Compound => compound(alloc, levels, bytes),
        Kind::IntArray => int_array_at(alloc, bytes),
        Kind::LongArray => long_array_at(alloc, bytes),
    }
}

/// A list, if a level is left for it.
#[cycle(payload)]
#[tactic(auto, unfolding(crate::specs::Reading::nested_at))]
fn list(alloc: Global, levels: usize, bytes: &[u8]) -> Result<(Tag, &[u8]), Failure>
    ensures { Gives (λ x. (x.0, x.1.now)) result ((nested_at levels).list bytes.now) }
{
    if levels == 0 {
        return Err(flaw_at(Cause::Deep, bytes));
    }
    list_in(alloc, levels - 1, bytes)
}

/// A list whose items may have so many levels.
#[cycle(payload)]
#[tactic(auto, unfolding(crate::specs::Reading::list_in))]
fn list_in(alloc: Global, levels: usize, bytes: &[u8]) -> Result<(Tag, &[u8]), Failure>
    ensures { Gives (λ x. (x.0, x.1.now)) result (list_in (payload_at levels) bytes.now) }
{
    let (element, rest) = element_at(bytes)?;
    let (count, rest) = i32_at(rest)?;
    let (items, rest) = counted(alloc, levels, bytes, element, count, rest)?;
    Ok((Tag::List { element, items }, rest))
}

/// What follows a list's count. The list begins at the first of the bytes.
#[cycle(payload)]
#[tactic(auto, unfolding(crate::specs::Reading::counted_at, crate::specs::Reading::items_of))]
fn counted<'a>(
    alloc: Global,
    levels: usize,
    bytes: &'a [u8],
    element: u8,
    count: i32,
    rest: &'a [u8],
) -> Result<(Items<Tag>, &'a [u8]), Failure>
    ensures { Gives (λ x. (x.0, x.1.now)) result
        (counted_at (payload_at levels) bytes.now element count rest.now) }
{
    if count <= 0 {
        return Ok((Items::new(alloc), rest));
    }
    match kind_of(element) {
        None => Err(flaw_at(Cause::BadType, bytes)),
        Some(kind) => items(alloc, levels, kind, count as usize, rest),
    }
}

/// So many payloads of one kind.
#[cycle(payload)]
fn items(
    alloc: Global,
    levels: usize,
    kind: Kind,
    count: usize,
    bytes: &[u8],
) -> Result<(Items<Tag>, &[u8]), Failure>
    ensures { Gives (λ x. (x.0, x.1.now)) result
        (items_at (payload_at levels kind) count bytes.now) }
{
    let mut items = with_room(alloc, count, bytes.len())?;
    let mut rest = bytes;
    for _ in 0..count {
        let (item, after) = payload(alloc, levels, kind, rest)?;
        items.push(item)?;
        rest = after;
    }
    Ok((Items::from_vec(items), rest))
}

/// A compound, if a level is left for it.
#[cycle(payload)]
#[tactic(auto, unfolding(crate::specs::Reading::nested_at))]
fn compound(alloc: Global, levels: usize, bytes: &[u8]) -> Result<(Tag, &[u8]), Failure>
    ensures { Gives (λ x. (x.0, x.1.now)) result ((nested_at levels).compound bytes.now) }
{
    if levels == 0 {
        return Err(flaw_at(Cause::Deep, bytes));
    }
    compound_in(alloc, levels - 1, bytes)
}

/// A compound whose tags may have so many levels.
#[cycle(payload)]
#[tactic(auto, unfolding(crate::specs::Reading::compound_in))]
fn compound_in(alloc: Global, levels: usize, bytes: &[u8]) -> Result<(Tag, &[u8]), Failure>
    ensures { Gives (λ x. (x.0, x.1.now)) result (compound_in (payload_at levels) bytes.now) }
{
    let (row, rest) = row(alloc, levels, Ending::Zero, bytes)?;
    Ok((Tag::Compound(row), rest))
}

/// A row of named tags up to its end.
#[cycle(payload)]
pub fn row(
    alloc: Global,
    levels: usize,
    ending: Ending,
    bytes: &[u8],
) -> Result<(Items<Named>, &[u8]), Failure>
    ensures { Gives (λ x. (x.0, x.1.now)) result
        (whole_row_at (payload_at levels) ending bytes.now) }
{
    let mut names = BTreeSet::new(alloc);
    let mut row = Vec::new(alloc);
    let mut rest = bytes;
    for _ in 0..bytes.len() + 1 {
        let (next, after) = next_at(ending, rest)?;
        let Some(kind) = next else {
            return Ok((Items::from_vec(row), after));
        };
        let (first, after) = entry(alloc, levels, kind, &mut names, rest, after)?;
        row.push(first)?;
        rest = after;
    }
    Err(flaw_at(Cause::Short, &[]))
}

/// The name and the payload of a named tag, whose type byte is the first of the bytes. Its name is
/// taken then.
#[cycle(payload)]
#[tactic(auto, unfolding(crate::specs::Reading::entry_at))]
pub fn entry<'a>(
    alloc: Global,
    levels: usize,
    kind: Kind,
    names: &mut BTreeSet<&'a [u8]>,
    bytes: &'a [u8],
    rest: &'a [u8],
) -> Result<(Named, &'a [u8]), Failure>
    ensures gives { Gives (λ x. (x.0, x.1.now)) result
        (entry_at (payload_at levels kind) (is_taken names.old) bytes.now rest.now) }
    ensures taken { IfOk result
        (λ x. is_taken names.new ≡ also (name_of x.0) (is_taken names.old)) }
{
    let (name, rest) = fresh_at(names, bytes, rest)?;
    let (tag, rest) = payload(alloc, levels, kind, rest)?;
    let name = copied(alloc, name)?;
    Ok((Named { name, tag }, rest))
}
