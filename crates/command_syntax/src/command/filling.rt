//! What fills the selection.
ghost use Rattle.std.specs.Prelude.{◌≡◌, ◌≤◌, true, length, option_map, IfOk, IfSome};
ghost use Rattle.run_terms.specs.Limits.{is_command_within, is_mask_within};
ghost use Rattle.command_syntax.specs.declared.verb.Verb.TheVariants as verbs;
ghost use Rattle.command_syntax.specs.Arguments.{if_any};
ghost use Rattle.command_syntax.specs.Term.{existing, mask_of};
ghost use Rattle.command_syntax.specs.Words.{AreShort};
ghost use Rattle.command_syntax.specs.Command.{command_with};
ghost use Rattle.block_state.specs.Read.{Gives};
ghost use Rattle.command_syntax.specs.Read.{IsStop};

use crate::arguments::{one_word, optional_and_one};
use crate::stop::Stop;
use crate::term::{existing, mask_of, pattern_of};
use edit_terms::{Command, Mask, Name};
use std::alloc::Global;

/// `//set`: the whole selection.
pub(crate) fn set(alloc: Global, words: &[Name]) -> Result<Command, Stop>
    requires { AreShort words.now }
    ensures read { Gives IsStop (λ command. command) (command_with verbs.Set words.now) result }
    ensures within { IfOk result (λ command. is_command_within command ≡ true) }
{
    let pattern = pattern_of(alloc, one_word(words)?)?;
    Ok(Command::Set { pattern })
}

/// `//walls`: the selection's walls.
pub(crate) fn walls(alloc: Global, words: &[Name]) -> Result<Command, Stop>
    requires { AreShort words.now }
    ensures read { Gives IsStop (λ command. command) (command_with verbs.Walls words.now) result }
    ensures within { IfOk result (λ command. is_command_within command ≡ true) }
{
    let pattern = pattern_of(alloc, one_word(words)?)?;
    Ok(Command::Walls { pattern })
}

/// `//faces`: the selection's faces.
pub(crate) fn faces(alloc: Global, words: &[Name]) -> Result<Command, Stop>
    requires { AreShort words.now }
    ensures read { Gives IsStop (λ command. command) (command_with verbs.Faces words.now) result }
    ensures within { IfOk result (λ command. is_command_within command ≡ true) }
{
    let pattern = pattern_of(alloc, one_word(words)?)?;
    Ok(Command::Faces { pattern })
}

/// `//replace`: the selection where a mask holds, or where it isn't air.
pub(crate) fn replace(alloc: Global, words: &[Name]) -> Result<Command, Stop>
    requires { AreShort words.now }
    ensures read { Gives IsStop (λ command. command) (command_with verbs.Replace words.now) result }
    ensures within { IfOk result (λ command. is_command_within command ≡ true) }
{
    let (mask, pattern) = optional_and_one(words)?;
    let mask = mask_or_existing(alloc, mask)?;
    let pattern = pattern_of(alloc, pattern)?;
    Ok(Command::Replace { mask, pattern })
}

fn mask_or_existing(alloc: Global, word: Option<&[u8]>) -> Result<Mask, Stop>
    requires { IfSome word (λ word. length word.now ≤ 1048576) }
    ensures read { Gives IsStop (λ mask. mask) (if_any existing mask_of (option_map (λ word. word.now) word.entry)) result }
    ensures within { IfOk result (λ mask. is_mask_within mask ≡ true) }
{
    match word {
        Some(word) => mask_of(alloc, word),
        None => Ok(existing(alloc)?),
    }
}
