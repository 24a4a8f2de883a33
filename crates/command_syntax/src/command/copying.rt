//! What repeats or moves the selection, or copies it to the clipboard and back.
ghost use Rattle.std.specs.Prelude.{◌≡◌, true, false, option_map, IfOk};
ghost use Rattle.run_terms.specs.Limits.{is_command_within};
ghost use Rattle.command_syntax.specs.declared.verb.Verb.TheVariants as verbs;
ghost use Rattle.command_syntax.specs.Arguments.{if_any};
ghost use Rattle.command_syntax.specs.Choice.{skip_air_of};
ghost use Rattle.command_syntax.specs.Words.{AreShort};
ghost use Rattle.command_syntax.specs.Command.{command_with};
ghost use Rattle.block_state.specs.Read.{Gives};
ghost use Rattle.command_syntax.specs.Read.{IsStop};

use crate::arguments::{optional_word, two_words};
use crate::choice::{direction_of, skip_air_of};
use crate::fault::LineFault;
use crate::number::count_of;
use crate::stop::Stop;
use edit_terms::{Command, Name};

/// `//stack`: the selection so many times in a direction.
pub(crate) fn stack(words: &[Name]) -> Result<Command, Stop>
    requires { AreShort words.now }
    ensures read { Gives IsStop (λ command. command) (command_with verbs.Stack words.now) result }
    ensures within { IfOk result (λ command. is_command_within command ≡ true) }
{
    let (count, to) = two_words(words)?;
    let count = count_of(count)?;
    let to = direction_of(to)?;
    Ok(Command::Stack { count, to })
}

/// `//move`: the selection so many blocks in a direction.
pub(crate) fn move_selection(words: &[Name]) -> Result<Command, Stop>
    requires { AreShort words.now }
    ensures read { Gives IsStop (λ command. command) (command_with verbs.Move words.now) result }
    ensures within { IfOk result (λ command. is_command_within command ≡ true) }
{
    let (count, to) = two_words(words)?;
    let count = count_of(count)?;
    let to = direction_of(to)?;
    Ok(Command::Move { count, to })
}

/// `//copy`: the selection to the clipboard.
pub(crate) fn copy(words: &[Name]) -> Result<Command, Stop>
    requires { AreShort words.now }
    ensures read { Gives IsStop (λ command. command) (command_with verbs.Copy words.now) result }
    ensures within { IfOk result (λ command. is_command_within command ≡ true) }
{
    match words {
        [] => Ok(Command::Copy),
        _ => Err(Stop::Fault(LineFault::ExtraWord)),
    }
}

/// `//cut`: the selection to the clipboard, and air in its place.
pub(crate) fn cut(words: &[Name]) -> Result<Command, Stop>
    requires { AreShort words.now }
    ensures read { Gives IsStop (λ command. command) (command_with verbs.Cut words.now) result }
    ensures within { IfOk result (λ command. is_command_within command ≡ true) }
{
    match words {
        [] => Ok(Command::Cut),
        _ => Err(Stop::Fault(LineFault::ExtraWord)),
    }
}

/// `//paste`: the clipboard, with `-a` without its air.
pub(crate) fn paste(words: &[Name]) -> Result<Command, Stop>
    requires { AreShort words.now }
    ensures read { Gives IsStop (λ command. command) (command_with verbs.Paste words.now) result }
    ensures within { IfOk result (λ command. is_command_within command ≡ true) }
{
    let skip_air = skip_air_if_any(optional_word(words)?)?;
    Ok(Command::Paste { skip_air })
}

fn skip_air_if_any(word: Option<&[u8]>) -> Result<bool, Stop>
    ensures { Gives IsStop (λ skip_air. skip_air) (if_any false skip_air_of (option_map (λ word. word.now) word.entry)) result }
{
    match word {
        Some(word) => skip_air_of(word),
        None => Ok(false),
    }
}
