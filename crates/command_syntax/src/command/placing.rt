//! The selection's positions and shape, the place, and a single block.
ghost use Rattle.std.specs.Prelude.{◌≡◌, true, IfOk};
ghost use Rattle.run_terms.specs.Limits.{is_command_within};
ghost use Rattle.command_syntax.specs.declared.verb.Verb.TheVariants as verbs;
ghost use Rattle.command_syntax.specs.Words.{AreShort};
ghost use Rattle.command_syntax.specs.Command.{command_with};
ghost use Rattle.block_state.specs.Read.{Gives};
ghost use Rattle.command_syntax.specs.Read.{IsStop};

use crate::arguments::{one_word, two_words};
use crate::choice::kind_of;
use crate::position::position_of;
use crate::stop::Stop;
use crate::term::state_of;
use edit_terms::{Command, Name};
use std::alloc::Global;

/// `//pos1`: the selection's first position.
pub(crate) fn pos1(words: &[Name]) -> Result<Command, Stop>
    requires { AreShort words.now }
    ensures read { Gives IsStop (λ command. command) (command_with verbs.Pos1 words.now) result }
    ensures within { IfOk result (λ command. is_command_within command ≡ true) }
{
    let at = position_of(one_word(words)?)?;
    Ok(Command::Pos1 { at })
}

/// `//pos2`: the selection's second position.
pub(crate) fn pos2(words: &[Name]) -> Result<Command, Stop>
    requires { AreShort words.now }
    ensures read { Gives IsStop (λ command. command) (command_with verbs.Pos2 words.now) result }
    ensures within { IfOk result (λ command. is_command_within command ≡ true) }
{
    let at = position_of(one_word(words)?)?;
    Ok(Command::Pos2 { at })
}

/// `at`: the place.
pub(crate) fn place(words: &[Name]) -> Result<Command, Stop>
    requires { AreShort words.now }
    ensures read { Gives IsStop (λ command. command) (command_with verbs.Place words.now) result }
    ensures within { IfOk result (λ command. is_command_within command ≡ true) }
{
    let at = position_of(one_word(words)?)?;
    Ok(Command::Place { at })
}

/// `//sel`: the selection's shape.
pub(crate) fn sel(words: &[Name]) -> Result<Command, Stop>
    requires { AreShort words.now }
    ensures read { Gives IsStop (λ command. command) (command_with verbs.Sel words.now) result }
    ensures within { IfOk result (λ command. is_command_within command ≡ true) }
{
    let kind = kind_of(one_word(words)?)?;
    Ok(Command::Sel { kind })
}

/// `block`: a state at a position.
pub(crate) fn block(alloc: Global, words: &[Name]) -> Result<Command, Stop>
    requires { AreShort words.now }
    ensures read { Gives IsStop (λ command. command) (command_with verbs.Block words.now) result }
    ensures within { IfOk result (λ command. is_command_within command ≡ true) }
{
    let (at, state) = two_words(words)?;
    let at = position_of(at)?;
    let state = state_of(alloc, state)?;
    Ok(Command::Block { at, state })
}
