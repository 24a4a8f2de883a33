//! Reading properties in their order in a text.
ghost use Rattle.std.specs.Prelude.{◌≡◌, ◌&&◌, [], Err, MatchOption};
ghost use Rattle.edit_terms.specs.StateText.{BadProperty, is_property, cut_at, opening, closing, comma, equals, judged, listed_behind, listed_inside, listed_before_end, listed_in};
ghost use Rattle.block_state.specs.Read.{IsFault, Gives};

use crate::cuts::{split_once, two_parts};
use crate::fault::StateFault;
use crate::pairs::{has_key, name_of};
use edit_terms::{Name, is_property_word};
use std::alloc::Global;

/// How many properties a state may have.
const MOST_PROPERTIES: usize = 16;

/// The properties of what stands behind the opening bracket.
pub(crate) fn read_behind(alloc: Global, rest: &[u8]) -> Result<Vec<(Name, Name)>, StateFault>
    ensures { Gives IsFault (λ listed. listed.items) (listed_in (cut_at opening rest.now)) result }
{
    let Some(inside) = inside_of(rest) else {
        return Err(StateFault::BadProperty);
    };
    if inside.is_empty() {
        return Ok(Vec::new(alloc));
    }
    read_listed(alloc, inside)
}

/// What stands between the brackets, the first of which is before `rest`. None where a bracket stands
/// there, or the text doesn't end with the closing one.
fn inside_of(rest: &[u8]) -> Option<&[u8]>
    ensures { MatchOption result (listed_in (cut_at opening rest.now) ≡ Err BadProperty)
        (λ inside. listed_in (cut_at opening rest.now) ≡ listed_inside inside.now) }
{
    match split_once(rest, b'[') {
        None => before_closing(rest),
        Some(_) => None,
    }
}

/// What stands before the one closing bracket, which is the last byte.
fn before_closing(rest: &[u8]) -> Option<&[u8]>
    ensures { MatchOption result (listed_before_end (cut_at closing rest.now) ≡ Err BadProperty)
        (λ inside. listed_before_end (cut_at closing rest.now) ≡ listed_inside inside.now) }
{
    let (inside, after) = split_once(rest, b']')?;
    if after.is_empty() { Some(inside) } else { None }
}

/// The properties between the commas.
fn read_listed(alloc: Global, inside: &[u8]) -> Result<Vec<(Name, Name)>, StateFault>
    ensures { Gives IsFault (λ listed. listed.items) (listed_behind [] (cut_at comma inside.now)) result }
{
    let mut listed = Vec::new(alloc);
    let mut rest = inside;
    while let Some((piece, after)) = split_once(rest, b',') {
        let property = read_property(alloc, &listed, piece)?;
        listed.push(property)?;
        rest = after;
    }
    let property = read_property(alloc, &listed, rest)?;
    listed.push(property)?;
    Ok(listed)
}

/// The property of a piece behind these earlier ones.
fn read_property(
    alloc: Global,
    earlier: &[(Name, Name)],
    piece: &[u8],
) -> Result<(Name, Name), StateFault>
    ensures { Gives IsFault (λ p. p) (judged earlier.now (cut_at equals piece.now)) result }
{
    let Some((key, value)) = two_parts(piece, b'=') else {
        return Err(StateFault::BadProperty);
    };
    if !is_property(key, value) {
        return Err(StateFault::BadProperty);
    }
    if has_key(earlier, key) {
        return Err(StateFault::RepeatedKey);
    }
    if earlier.len() >= MOST_PROPERTIES {
        return Err(StateFault::TooManyProperties);
    }
    Ok((name_of(alloc, key)?, name_of(alloc, value)?))
}

fn is_property(key: &[u8], value: &[u8]) -> bool
    ensures { result ≡ is_property (key.now, value.now) }
{
    is_property_word(key) && is_property_word(value)
}
