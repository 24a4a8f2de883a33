//! What a motion makes of keys and values: the turn table.
ghost use Rattle.std.specs.Prelude.{◌≡◌};
ghost use Rattle.edit_terms.specs.Transform.{by_words, next_sides, exchanged, turned_value};
ghost use Rattle.block_state.specs.Turn.{table_of};

use crate::decimals::{decimal, number_of};
use crate::motion::Motion;

/// What a key becomes.
pub(crate) fn turned_key(motion: Motion, key: &[u8]) -> &[u8]
    ensures { result.now ≡ by_words (table_of motion).keys key.now }
{
    match motion {
        Motion::QuarterTurn => next_side(key),
        Motion::FlipX => exchanged(b"east", b"west", key),
        Motion::FlipY => key,
    }
}

/// What the value of a key becomes.
pub(crate) fn turned_value<'a>(motion: Motion, key: &[u8], value: &'a [u8]) -> &'a [u8]
    ensures { result.now ≡ turned_value (table_of motion) key.now value.now }
{
    if b"facing".as_slice() == key {
        return turned_facing(motion, value);
    }
    if b"axis".as_slice() == key {
        return turned_axis(motion, value);
    }
    if b"rotation".as_slice() == key {
        return turned_rotation(motion, value);
    }
    value
}

fn turned_facing(motion: Motion, value: &[u8]) -> &[u8]
    ensures { result.now ≡ by_words (table_of motion).facing value.now }
{
    match motion {
        Motion::QuarterTurn => next_side(value),
        Motion::FlipX => exchanged(b"east", b"west", value),
        Motion::FlipY => exchanged(b"up", b"down", value),
    }
}

fn turned_axis(motion: Motion, value: &[u8]) -> &[u8]
    ensures { result.now ≡ by_words (table_of motion).axis value.now }
{
    match motion {
        Motion::QuarterTurn => exchanged(b"x", b"z", value),
        Motion::FlipX | Motion::FlipY => value,
    }
}

/// Sixteenths of a whole turn.
#[tactic(auto, using(crate::proofs::RotationLemmas::turned_number, crate::proofs::RotationLemmas::no_number))]
fn turned_rotation(motion: Motion, value: &[u8]) -> &[u8]
    ensures { result.now ≡ by_words (table_of motion).rotation value.now }
{
    let Some(number) = number_of(value) else {
        return value;
    };
    match motion {
        Motion::QuarterTurn => decimal((number + 4) % 16),
        Motion::FlipX => decimal((16 - number) % 16),
        Motion::FlipY => value,
    }
}

/// The side that a quarter turn makes of a side; another word stays.
fn next_side(word: &[u8]) -> &[u8]
    ensures { result.now ≡ by_words next_sides word.now }
{
    if b"north".as_slice() == word {
        return b"east";
    }
    if b"east".as_slice() == word {
        return b"south";
    }
    if b"south".as_slice() == word {
        return b"west";
    }
    if b"west".as_slice() == word {
        return b"north";
    }
    word
}

/// The other one of the two; another word stays.
fn exchanged<'a>(first: &'a [u8], second: &'a [u8], word: &'a [u8]) -> &'a [u8]
    ensures { result.now ≡ by_words (exchanged first.now second.now) word.now }
{
    if first == word {
        return second;
    }
    if second == word {
        return first;
    }
    word
}
