//! The commands.
ghost use Rattle.std.specs.Prelude.{◌≡◌, ◌≤◌, true, length, IfOk};
ghost use Rattle.run_terms.specs.Limits.{is_command_within};
ghost use Rattle.command_syntax.specs.Words.{AreShort};
ghost use Rattle.command_syntax.specs.Command.{command_with, command_from, command_of};
ghost use Rattle.block_state.specs.Read.{Gives};
ghost use Rattle.command_syntax.specs.Read.{IsStop};

mod copying;
mod filling;
mod placing;
mod session;
mod shape;

use crate::fault::LineFault;
use crate::stop::Stop;
use crate::verb::{Verb, verb_of};
use crate::words::words_of;
use edit_terms::{Command, Name};
use std::alloc::Global;

/// The command of a line of at most 1,048,576 bytes.
pub(crate) fn command_of(alloc: Global, line: &[u8]) -> Result<Command, Stop>
    requires { length line.now ≤ 1048576 }
    ensures read { Gives IsStop (λ command. command) (command_of line.now) result }
    ensures within { IfOk result (λ command. is_command_within command ≡ true) }
{
    let words = words_of(alloc, line)?;
    command_from(alloc, &words)
}

fn command_from(alloc: Global, words: &[Name]) -> Result<Command, Stop>
    requires { AreShort words.now }
    ensures read { Gives IsStop (λ command. command) (command_from words.now) result }
    ensures within { IfOk result (λ command. is_command_within command ≡ true) }
{
    let [word, behind @ ..] = words else {
        return Err(Stop::Fault(LineFault::UnknownCommand));
    };
    let Some(verb) = verb_of(word.as_slice()) else {
        return Err(Stop::Fault(LineFault::UnknownCommand));
    };
    command_with(alloc, verb, behind)
}

/// The command of the words behind its own.
fn command_with(alloc: Global, verb: Verb, words: &[Name]) -> Result<Command, Stop>
    requires { AreShort words.now }
    ensures read { Gives IsStop (λ command. command) (command_with verb words.now) result }
    ensures within { IfOk result (λ command. is_command_within command ≡ true) }
{
    match verb {
        Verb::Pos1 => placing::pos1(words),
        Verb::Pos2 => placing::pos2(words),
        Verb::Place => placing::place(words),
        Verb::Sel => placing::sel(words),
        Verb::Block => placing::block(alloc, words),
        Verb::Set => filling::set(alloc, words),
        Verb::Walls => filling::walls(alloc, words),
        Verb::Faces => filling::faces(alloc, words),
        Verb::Replace => filling::replace(alloc, words),
        Verb::Sphere => shape::sphere(alloc, false, words),
        Verb::HollowSphere => shape::sphere(alloc, true, words),
        Verb::Cyl => shape::cyl(alloc, false, words),
        Verb::HollowCyl => shape::cyl(alloc, true, words),
        Verb::Stack => copying::stack(words),
        Verb::Move => copying::move_selection(words),
        Verb::Copy => copying::copy(words),
        Verb::Cut => copying::cut(words),
        Verb::Paste => copying::paste(words),
        Verb::Rotate => session::rotate(words),
        Verb::Flip => session::flip(words),
        Verb::Gmask => session::gmask(alloc, words),
        Verb::Undo => session::undo(words),
        Verb::Redo => session::redo(words),
    }
}
