//! Numbers of a script.
ghost use Rattle.std.specs.Prelude.{◌≡◌, ◌≤◌, true, nat_abs, neg_ℤ, pos, Option, option_map, IfOk};
ghost use Rattle.run_terms.specs.Limits.{is_count, is_radius, is_height, is_one_of};
ghost use Rattle.term_text.specs.Digits.{natural_of};
ghost use Rattle.command_syntax.specs.Number.{number_of, number_reading, limited, count_of, radius_of, height_of, quarters_in, quarters_of};
ghost use Rattle.block_state.specs.Read.{Gives};
ghost use Rattle.command_syntax.specs.Read.{IsStop};

use crate::fault::LineFault;
use crate::stop::Stop;
use term_text::natural_of;

/// A count of copies, blocks or edits: 1 to 1,000.
pub(crate) fn count_of(word: &[u8]) -> Result<u32, Stop>
    ensures read { Gives IsStop (λ n. n) (count_of word.now) result }
    ensures within { IfOk result (λ n. is_count n ≡ true) }
{
    limited(&number_reading(word)?, 1, 1_000)
}

/// A radius: 0 to 1,000.
pub(crate) fn radius_of(word: &[u8]) -> Result<u32, Stop>
    ensures read { Gives IsStop (λ n. n) (radius_of word.now) result }
    ensures within { IfOk result (λ n. is_radius n ≡ true) }
{
    limited(&number_reading(word)?, 0, 1_000)
}

/// A height: 1 to 4,096.
pub(crate) fn height_of(word: &[u8]) -> Result<u32, Stop>
    ensures read { Gives IsStop (λ n. n) (height_of word.now) result }
    ensures within { IfOk result (λ n. is_height n ≡ true) }
{
    limited(&number_reading(word)?, 1, 4_096)
}

/// The quarter turns of an angle: 90, 180 or 270 degrees.
pub(crate) fn quarters_of(word: &[u8]) -> Result<u8, Stop>
    ensures read { Gives IsStop (λ n. n) (quarters_of word.now) result }
    ensures within { IfOk result (λ n. is_one_of 1 3 n ≡ true) }
{
    let angle = limited(&number_reading(word)?, 90, 270)?;
    quarters_in(angle)
}

fn quarters_in(angle: u32) -> Result<u8, Stop>
    ensures read { Gives IsStop (λ n. n) (quarters_in angle) result }
    ensures within { IfOk result (λ n. is_one_of 1 3 n ≡ true) }
{
    if angle == 90 {
        return Ok(1);
    }
    if angle == 180 {
        return Ok(2);
    }
    if angle == 270 {
        return Ok(3);
    }
    Err(Stop::Fault(LineFault::OutOfLimit))
}

/// The number, which is to be from low to high.
fn limited(number: &i64, low: u32, high: u32) -> Result<u32, Stop>
    ensures read { Gives IsStop (λ n. n) (limited low high number.now) result }
    ensures low { IfOk result (λ n. low ≤ n) }
    ensures high { IfOk result (λ n. n ≤ high) }
{
    if low as i64 <= *number && *number <= high as i64 {
        return Ok(*number as u32);
    }
    Err(Stop::Fault(LineFault::OutOfLimit))
}

/// The number of a word.
fn number_reading(word: &[u8]) -> Result<i64, Stop>
    ensures { Gives IsStop (λ n. n) (number_reading word.now) result }
{
    match number_of(word) {
        Some(number) => Ok(number),
        None => Err(Stop::Fault(LineFault::BadNumber)),
    }
}

/// The number of these bytes: an optional minus and 1 to 10 digits. None where they are no number.
pub(crate) fn number_of(bytes: &[u8]) -> Option<i64>
    ensures { result ≡ number_of bytes.now }
{
    match bytes {
        [b'-', digits @ ..] => negative_of(digits),
        _ => positive_of(bytes),
    }
}

fn negative_of(digits: &[u8]) -> Option<i64>
    ensures { result ≡ option_map (λ n. neg_ℤ (pos n)) (natural_of 10 digits.now) }
{
    let natural = natural_of(digits, 10)?;
    Some(-(natural as i64))
}

fn positive_of(digits: &[u8]) -> Option<i64>
    ensures { result ≡ option_map pos (natural_of 10 digits.now) }
{
    let natural = natural_of(digits, 10)?;
    Some(natural as i64)
}
