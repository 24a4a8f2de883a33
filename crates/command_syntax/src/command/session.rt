//! What turns the clipboard, and what concerns all edits.
ghost use Rattle.std.specs.Prelude.{◌≡◌, ◌≤◌, true, length, option_map, None, Some, IfOk, IfSome};
ghost use Rattle.run_terms.specs.Limits.{is_command_within, is_mask_within, is_count};
ghost use Rattle.command_syntax.specs.declared.verb.Verb.TheVariants as verbs;
ghost use Rattle.std.specs.Option.{option_map_or};
ghost use Rattle.term_text.specs.Verdict.{verdict_map};
ghost use Rattle.command_syntax.specs.Arguments.{if_any};
ghost use Rattle.command_syntax.specs.Number.{count_of};
ghost use Rattle.command_syntax.specs.Term.{mask_of};
ghost use Rattle.command_syntax.specs.Words.{AreShort};
ghost use Rattle.command_syntax.specs.Command.{command_with};
ghost use Rattle.block_state.specs.Read.{Gives};
ghost use Rattle.command_syntax.specs.Read.{IsStop};

use crate::arguments::{one_word, optional_word};
use crate::choice::direction_of;
use crate::number::{count_of, quarters_of};
use crate::stop::Stop;
use crate::term::mask_of;
use edit_terms::{Command, Mask, Name};
use std::alloc::Global;

/// `//rotate`: the clipboard by an angle.
pub(crate) fn rotate(words: &[Name]) -> Result<Command, Stop>
    requires { AreShort words.now }
    ensures read { Gives IsStop (λ command. command) (command_with verbs.Rotate words.now) result }
    ensures within { IfOk result (λ command. is_command_within command ≡ true) }
{
    let quarters = quarters_of(one_word(words)?)?;
    Ok(Command::Rotate { quarters })
}

/// `//flip`: the clipboard along a direction.
pub(crate) fn flip(words: &[Name]) -> Result<Command, Stop>
    requires { AreShort words.now }
    ensures read { Gives IsStop (λ command. command) (command_with verbs.Flip words.now) result }
    ensures within { IfOk result (λ command. is_command_within command ≡ true) }
{
    let to = direction_of(one_word(words)?)?;
    Ok(Command::Flip { to })
}

/// `//gmask`: the mask of all edits, or none.
pub(crate) fn gmask(alloc: Global, words: &[Name]) -> Result<Command, Stop>
    requires { AreShort words.now }
    ensures read { Gives IsStop (λ command. command) (command_with verbs.Gmask words.now) result }
    ensures within { IfOk result (λ command. is_command_within command ≡ true) }
{
    let mask = mask_if_any(alloc, optional_word(words)?)?;
    Ok(Command::Gmask { mask })
}

/// `//undo`: so many edits are taken back, or one.
pub(crate) fn undo(words: &[Name]) -> Result<Command, Stop>
    requires { AreShort words.now }
    ensures read { Gives IsStop (λ command. command) (command_with verbs.Undo words.now) result }
    ensures within { IfOk result (λ command. is_command_within command ≡ true) }
{
    let count = count_or_one(optional_word(words)?)?;
    Ok(Command::Undo { count })
}

/// `//redo`: so many edits are done again, or one.
pub(crate) fn redo(words: &[Name]) -> Result<Command, Stop>
    requires { AreShort words.now }
    ensures read { Gives IsStop (λ command. command) (command_with verbs.Redo words.now) result }
    ensures within { IfOk result (λ command. is_command_within command ≡ true) }
{
    let count = count_or_one(optional_word(words)?)?;
    Ok(Command::Redo { count })
}

fn mask_if_any(alloc: Global, word: Option<&[u8]>) -> Result<Option<Mask>, Stop>
    requires { IfSome word (λ word. length word.now ≤ 1048576) }
    ensures read { Gives IsStop (λ mask. mask) (if_any None (λ word. verdict_map Some (mask_of word)) (option_map (λ word. word.now) word.entry)) result }
    ensures within { IfOk result (λ mask. option_map_or is_mask_within mask true ≡ true) }
{
    match word {
        Some(word) => Ok(Some(mask_of(alloc, word)?)),
        None => Ok(None),
    }
}

fn count_or_one(word: Option<&[u8]>) -> Result<u32, Stop>
    ensures read { Gives IsStop (λ n. n) (if_any 1 count_of (option_map (λ word. word.now) word.entry)) result }
    ensures within { IfOk result (λ n. is_count n ≡ true) }
{
    match word {
        Some(word) => count_of(word),
        None => Ok(1),
    }
}
