//! Positions of a script.
ghost use Rattle.std.specs.Prelude.{◌≡◌, ◌≢◌, ◌∷◌, [], true, length, negsuc, Option, Some, None, IfOk, MatchOption};
ghost use Rattle.edit_terms.specs.Area.{is_from, is_on_map};
ghost use Rattle.edit_terms.specs.StateText.{cut_at};
ghost use Rattle.command_syntax.specs.Number.{number_of};
ghost use Rattle.command_syntax.specs.Position.{position_at, position_of};
ghost use Rattle.block_state.specs.Read.{Gives};
ghost use Rattle.command_syntax.specs.Read.{IsStop};

use crate::fault::LineFault;
use crate::number::number_of;
use crate::stop::Stop;
use block_state::{split_once, two_parts};
use edit_terms::Pos;

/// The position of a word: three numbers within the limits, with commas between.
#[tactic(auto, using(crate::proofs::Positions::position_of_three, crate::proofs::Positions::position_of_others))]
pub(crate) fn position_of(word: &[u8]) -> Result<Pos, Stop>
    ensures read { Gives IsStop (λ p. p) (position_of word.now) result }
    ensures within { IfOk result (λ p. is_on_map p ≡ true) }
{
    let Some((x, y, z)) = three_parts(word, b',') else {
        return Err(Stop::Fault(LineFault::BadNumber));
    };
    position_from(x, y, z)
}

/// The three parts around two separators. None where there aren't exactly two.
fn three_parts(bytes: &[u8], separator: u8) -> Option<(&[u8], &[u8], &[u8])>
    ensures { MatchOption result (length (cut_at separator bytes.now) ≢ 3)
        (λ cut. cut_at separator bytes.now ≡ cut.0.now ∷ cut.1.now ∷ cut.2.now ∷ []) }
{
    let (first, rest) = split_once(bytes, separator)?;
    let (second, third) = two_parts(rest, separator)?;
    Some((first, second, third))
}

fn position_from(x: &[u8], y: &[u8], z: &[u8]) -> Result<Pos, Stop>
    ensures read { Gives IsStop (λ p. p) (position_at (number_of x.now) (number_of y.now) (number_of z.now)) result }
    ensures within { IfOk result (λ p. is_on_map p ≡ true) }
{
    let Some(x) = number_of(x) else {
        return Err(Stop::Fault(LineFault::BadNumber));
    };
    let Some(y) = number_of(y) else {
        return Err(Stop::Fault(LineFault::BadNumber));
    };
    let Some(z) = number_of(z) else {
        return Err(Stop::Fault(LineFault::BadNumber));
    };
    position_at(&x, &y, &z)
}

fn position_at(x: &i64, y: &i64, z: &i64) -> Result<Pos, Stop>
    ensures read { Gives IsStop (λ p. p) (position_at (Some x.now) (Some y.now) (Some z.now)) result }
    ensures within { IfOk result (λ p. is_on_map p ≡ true) }
{
    if is_across(x) && is_high(y) && is_across(z) {
        return Ok(position(x, y, z));
    }
    Err(Stop::Fault(LineFault::OutOfLimit))
}

fn position(x: &i64, y: &i64, z: &i64) -> Pos
    requires across { is_from (negsuc 33554431) 67108864 x.now ≡ true }
    requires high { is_from (negsuc 2047) 4096 y.now ≡ true }
    requires along { is_from (negsuc 33554431) 67108864 z.now ≡ true }
    ensures x { result.x ≡ x.now }
    ensures y { result.y ≡ y.now }
    ensures z { result.z ≡ z.now }
{
    Pos {
        x: *x as i32,
        y: *y as i32,
        z: *z as i32,
    }
}

/// An x or a z within the limits.
fn is_across(number: &i64) -> bool
    ensures { result ≡ is_from (negsuc 33554431) 67108864 number.now }
{
    -33_554_432 <= *number && *number < 33_554_432
}

/// A y within the limits.
fn is_high(number: &i64) -> bool
    ensures { result ≡ is_from (negsuc 2047) 4096 number.now }
{
    -2_048 <= *number && *number < 2_048
}
