//! How many words stand behind a command's own.
ghost use Rattle.std.specs.Prelude.{◌≡◌, ◌≤◌, length, option_map, Option, Some, None, IfOk, IfSome};
ghost use Rattle.command_syntax.specs.Arguments.{one_word, optional_word, two_words, optional_and_one, two_and_optional};
ghost use Rattle.command_syntax.specs.Words.{AreShort};
ghost use Rattle.block_state.specs.Read.{Gives};
ghost use Rattle.command_syntax.specs.Read.{IsStop};

use crate::fault::LineFault;
use crate::stop::Stop;
use edit_terms::Name;

/// The only word.
#[tactic(auto, using(crate::proofs::WordCounts::more_than_one))]
pub(crate) fn one_word(words: &[Name]) -> Result<&[u8], Stop>
    requires { AreShort words.now }
    ensures read { Gives IsStop (λ word. word.now) (one_word words.now) result }
    ensures short { IfOk result (λ word. length word.now ≤ 1048576) }
{
    match words {
        [] => Err(Stop::Fault(LineFault::MissingWord)),
        [word] => Ok(word.as_slice()),
        _ => Err(Stop::Fault(LineFault::ExtraWord)),
    }
}

/// The only word, or none.
#[tactic(auto, using(crate::proofs::WordCounts::more_than_optional))]
pub(crate) fn optional_word(words: &[Name]) -> Result<Option<&[u8]>, Stop>
    requires { AreShort words.now }
    ensures read { Gives IsStop (option_map (λ word. word.now)) (optional_word words.now) result }
    ensures short { IfOk result (λ word. IfSome word (λ word. length word.now ≤ 1048576)) }
{
    match words {
        [] => Ok(None),
        [word] => Ok(Some(word.as_slice())),
        _ => Err(Stop::Fault(LineFault::ExtraWord)),
    }
}

/// The only two words.
#[tactic(auto, using(crate::proofs::WordCounts::more_than_two))]
pub(crate) fn two_words(words: &[Name]) -> Result<(&[u8], &[u8]), Stop>
    requires { AreShort words.now }
    ensures read { Gives IsStop (λ pair. (pair.0.now, pair.1.now)) (two_words words.now) result }
    ensures first { IfOk result (λ pair. length pair.0.now ≤ 1048576) }
    ensures second { IfOk result (λ pair. length pair.1.now ≤ 1048576) }
{
    match words {
        [] => Err(Stop::Fault(LineFault::MissingWord)),
        [_] => Err(Stop::Fault(LineFault::MissingWord)),
        [first, second] => Ok((first.as_slice(), second.as_slice())),
        _ => Err(Stop::Fault(LineFault::ExtraWord)),
    }
}

/// The only word, or the last of two, and the first of them.
#[tactic(auto, using(crate::proofs::WordCounts::more_than_optional_and_one))]
pub(crate) fn optional_and_one(words: &[Name]) -> Result<(Option<&[u8]>, &[u8]), Stop>
    requires { AreShort words.now }
    ensures read { Gives IsStop (λ pair. (option_map (λ word. word.now) pair.0, pair.1.now)) (optional_and_one words.now) result }
    ensures optional { IfOk result (λ pair. IfSome pair.0 (λ word. length word.now ≤ 1048576)) }
    ensures last { IfOk result (λ pair. length pair.1.now ≤ 1048576) }
{
    match words {
        [] => Err(Stop::Fault(LineFault::MissingWord)),
        [word] => Ok((None, word.as_slice())),
        [first, word] => Ok((Some(first.as_slice()), word.as_slice())),
        _ => Err(Stop::Fault(LineFault::ExtraWord)),
    }
}

/// Two words and, if it is there, a third.
#[tactic(auto, using(crate::proofs::WordCounts::more_than_two_and_optional))]
pub(crate) fn two_and_optional(words: &[Name]) -> Result<(&[u8], &[u8], Option<&[u8]>), Stop>
    requires { AreShort words.now }
    ensures read { Gives IsStop (λ all. (all.0.now, all.1.now, option_map (λ word. word.now) all.2)) (two_and_optional words.now) result }
    ensures first { IfOk result (λ all. length all.0.now ≤ 1048576) }
{
    match words {
        [] => Err(Stop::Fault(LineFault::MissingWord)),
        [_] => Err(Stop::Fault(LineFault::MissingWord)),
        [first, second] => Ok((first.as_slice(), second.as_slice(), None)),
        [first, second, third] => {
            Ok((first.as_slice(), second.as_slice(), Some(third.as_slice())))
        }
        _ => Err(Stop::Fault(LineFault::ExtraWord)),
    }
}
