//! Balls and upright cylinders.
ghost use Rattle.std.specs.Prelude.{◌≡◌, true, option_map, IfOk};
ghost use Rattle.run_terms.specs.Limits.{is_command_within, is_height};
ghost use Rattle.command_syntax.specs.Arguments.{if_any};
ghost use Rattle.command_syntax.specs.Number.{height_of};
ghost use Rattle.command_syntax.specs.Words.{AreShort};
ghost use Rattle.command_syntax.specs.Command.{sphere, cylinder};
ghost use Rattle.block_state.specs.Read.{Gives};
ghost use Rattle.command_syntax.specs.Read.{IsStop};

use crate::arguments::{two_and_optional, two_words};
use crate::number::{height_of, radius_of};
use crate::stop::Stop;
use crate::term::pattern_of;
use edit_terms::{Command, Name};
use std::alloc::Global;

/// `//sphere` and, hollow, `//hsphere`: a ball.
pub(crate) fn sphere(alloc: Global, hollow: bool, words: &[Name]) -> Result<Command, Stop>
    requires { AreShort words.now }
    ensures read { Gives IsStop (λ command. command) (sphere hollow words.now) result }
    ensures within { IfOk result (λ command. is_command_within command ≡ true) }
{
    let (pattern, radius) = two_words(words)?;
    let pattern = pattern_of(alloc, pattern)?;
    let radius = radius_of(radius)?;
    Ok(Command::Sphere {
        pattern,
        radius,
        hollow,
    })
}

/// `//cyl` and, hollow, `//hcyl`: an upright cylinder, of height 1 where none is named.
pub(crate) fn cyl(alloc: Global, hollow: bool, words: &[Name]) -> Result<Command, Stop>
    requires { AreShort words.now }
    ensures read { Gives IsStop (λ command. command) (cylinder hollow words.now) result }
    ensures within { IfOk result (λ command. is_command_within command ≡ true) }
{
    let (pattern, radius, height) = two_and_optional(words)?;
    let pattern = pattern_of(alloc, pattern)?;
    let radius = radius_of(radius)?;
    let height = height_or_one(height)?;
    Ok(Command::Cyl {
        pattern,
        radius,
        height,
        hollow,
    })
}

fn height_or_one(word: Option<&[u8]>) -> Result<u32, Stop>
    ensures read { Gives IsStop (λ n. n) (if_any 1 height_of (option_map (λ word. word.now) word.entry)) result }
    ensures within { IfOk result (λ n. is_height n ≡ true) }
{
    match word {
        Some(word) => height_of(word),
        None => Ok(1),
    }
}
