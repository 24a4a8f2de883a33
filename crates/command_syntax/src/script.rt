//! Scripts.
ghost use Rattle.std.specs.Prelude.{◌≡◌, ◌≤◌, ◌<◌, ◌++◌, ◌∷◌, [], true, length, nat_le, position, OnOk, Ok, IfOk, IfErr, IfSome, All};
ghost use Rattle.run_terms.specs.Limits.{IsScriptWithin, is_command_within};
ghost use Rattle.command_syntax.specs.declared.fault.ScriptFault.TheVariants.{Memory};
ghost use Rattle.command_syntax.specs.Lines.{significant};
ghost use Rattle.command_syntax.specs.Cursor.{line_now};
ghost use Rattle.command_syntax.specs.Script.{numbered, judged, commands_of, script_of_lines, script_of_bytes};
ghost use Rattle.block_state.specs.Read.{Gives};
ghost use Rattle.command_syntax.specs.Read.{IsScriptFault};

use crate::command::command_of;
use crate::fault::ScriptFault;
use crate::line::{Lines, NumberedLine};
use crate::player::player_of;
use crate::stop::Stop;
use edit_terms::{Items, Line, Script};
use std::alloc::Global;

/// How many commands a script may have.
const MOST_COMMANDS: u32 = 10_000;

/// Reads a script, of at most 1,048,576 bytes.
///
/// A line ends with a line feed, before which a carriage return may stand, or with the file. Lines of blanks
/// alone, which are spaces and tabs, and lines whose first other byte is `#` are skipped. The first other
/// line is `player NAME`, and each later one a command: its word, and behind it the words that it takes.
/// Words stand with blanks between. A `"` begins a part of a word that ends at the next `"`; both are
/// dropped, and blanks between them belong to the word.
///
/// A command has the number of its line in the file, from 1.
///
/// An error is the first fault from the top, with the number of its line; a byte that isn't ASCII comes
/// before all else. The fault of a line is never `Memory`, nor has one inside. `Memory` where an allocation
/// was refused.
pub fn read_script(alloc: Global, bytes: &[u8]) -> Result<Script, ScriptFault>
    requires { length bytes.now ≤ 1048576 }
    ensures read { IfOk result (λ script. script_of_bytes bytes.now ≡ Ok script) }
    ensures fault { IfErr result (λ fault. IsScriptFault (script_of_bytes bytes.now) fault) }
    ensures within { IfOk result (λ script. IsScriptWithin script) }
{
    if let Some(byte) = first_beyond_ascii(bytes) {
        return Err(ScriptFault::NotAscii { byte: byte as u32 });
    }
    let mut lines = Lines::new(bytes);
    read_lines(alloc, &mut lines)
}

/// The place of the first byte that isn't ASCII.
fn first_beyond_ascii(bytes: &[u8]) -> Option<usize>
    ensures first { result ≡ position (λ b. nat_le 128 b) bytes.now }
    ensures inside { IfSome result (λ at. at < length bytes.now) }
{
    bytes.iter().position(|b| 128 <= *b)
}

/// The script of these lines.
fn read_lines(alloc: Global, lines: &mut Lines) -> Result<Script, ScriptFault>
    ensures read { Gives IsScriptFault (λ script. script) (script_of_lines (significant lines.old)) result }
    ensures within { IfOk result (λ script. IsScriptWithin script) }
{
    let Some(first) = lines.next_significant() else {
        return Err(ScriptFault::NoPlayer);
    };
    let player = player_of(alloc, first.text)?;
    let lines = read_commands(alloc, lines)?;
    Ok(Script { player, lines })
}

/// The commands of these lines.
#[tactic(auto, using(term_text::proofs::Joined::joined_none, term_text::proofs::Joined::joined_all, crate::proofs::Within::none_within, crate::proofs::Within::one_within))]
fn read_commands(alloc: Global, lines: &mut Lines) -> Result<Items<Line>, ScriptFault>
    ensures read { Gives IsScriptFault (λ lines. lines) (commands_of (significant lines.old)) result }
    ensures few { IfOk result (λ lines. length lines ≤ 10000) }
    ensures within { IfOk result (λ lines. All (λ line. is_command_within line.command ≡ true) lines) }
{
    let mut commands = Vec::new(alloc);
    let mut count = 0;
    while let Some(line) = lines.next_significant() {
        let command = read_behind(alloc, count, &line)?;
        count += 1;
        put_last(&mut commands, command)?;
    }
    Ok(Items::from_vec(commands))
}

/// Puts a command behind the others. `Memory` where there is no room for it; it is dropped then.
fn put_last(commands: &mut Vec<Line>, command: Line) -> Result<(), ScriptFault>
    ensures put { OnOk result (commands.new.items ≡ commands.old.items ++ command ∷ []) }
    ensures err { IfErr result (λ fault. fault ≡ Memory) }
{
    commands.push(command)?;
    Ok(())
}

/// The command of a line behind so many others.
fn read_behind(alloc: Global, before: u32, line: &NumberedLine) -> Result<Line, ScriptFault>
    requires { length line.now.text.now ≤ 1048576 }
    ensures read { Gives IsScriptFault (λ line. line) (judged (before, line_now line.now)) result }
    ensures within { IfOk result (λ line. is_command_within line.command ≡ true) }
    ensures few { IfOk result (λ _. before < 10000) }
{
    if before >= MOST_COMMANDS {
        return Err(ScriptFault::TooManyLines);
    }
    read_line(alloc, line)
}

/// The command of a line.
fn read_line(alloc: Global, line: &NumberedLine) -> Result<Line, ScriptFault>
    requires { length line.now.text.now ≤ 1048576 }
    ensures read { Gives IsScriptFault (λ line. line) (numbered (line_now line.now)) result }
    ensures within { IfOk result (λ line. is_command_within line.command ≡ true) }
{
    let number = line.number;
    match command_of(alloc, line.text) {
        Ok(command) => Ok(Line { number, command }),
        Err(Stop::Fault(fault)) => Err(ScriptFault::Line {
            line: number,
            fault,
        }),
        Err(Stop::Memory) => Err(ScriptFault::Memory),
    }
}
