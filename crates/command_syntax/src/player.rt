//! A script's first line, which names its player.
ghost use Rattle.std.specs.Prelude.{◌≡◌, ◌≤◌, [], ◌∷◌, true, length, IfOk};
ghost use Rattle.std.specs.List.{list_all};
ghost use Rattle.run_terms.specs.Limits.{is_one_of};
ghost use Rattle.command_syntax.specs.Player.{is_name_byte, is_player_name, player_named, player_from, player_of};
ghost use Rattle.block_state.specs.Read.{Gives};
ghost use Rattle.command_syntax.specs.Read.{IsScriptFault};

use crate::fault::ScriptFault;
use crate::stop::Stop;
use crate::words::words_of;
use edit_terms::Name;
use std::alloc::Global;

/// The player of a line of at most 1,048,576 bytes: `player` and a name.
pub(crate) fn player_of(alloc: Global, line: &[u8]) -> Result<Name, ScriptFault>
    requires { length line.now ≤ 1048576 }
    ensures read { Gives IsScriptFault (λ name. name) (player_of line.now) result }
    ensures within { IfOk result (λ name. is_one_of 1 16 (length name) ≡ true) }
{
    match words_of(alloc, line) {
        Ok(words) => player_from(alloc, &words),
        Err(Stop::Fault(_fault)) => Err(ScriptFault::BadPlayer),
        Err(Stop::Memory) => Err(ScriptFault::Memory),
    }
}

fn player_from(alloc: Global, words: &[Name]) -> Result<Name, ScriptFault>
    ensures read { Gives IsScriptFault (λ name. name) (player_from words.now) result }
    ensures within { IfOk result (λ name. is_one_of 1 16 (length name) ≡ true) }
{
    let [word, names @ ..] = words else {
        return Err(ScriptFault::NoPlayer);
    };
    if word.as_slice() != b"player".as_slice() {
        return Err(ScriptFault::NoPlayer);
    }
    player_named(alloc, names)
}

/// The player whose names these are.
#[tactic(auto, using(crate::proofs::WordCounts::more_than_one_name))]
fn player_named(alloc: Global, names: &[Name]) -> Result<Name, ScriptFault>
    ensures read { Gives IsScriptFault (λ name. name) (player_named names.now) result }
    ensures within { IfOk result (λ name. is_one_of 1 16 (length name) ≡ true) }
{
    match names {
        [] => Err(ScriptFault::BadPlayer),
        [name] => good_name(alloc, name.as_slice()),
        _ => Err(ScriptFault::BadPlayer),
    }
}

fn good_name(alloc: Global, name: &[u8]) -> Result<Name, ScriptFault>
    ensures read { Gives IsScriptFault (λ name. name) (player_named (name.now ∷ [])) result }
    ensures within { IfOk result (λ name. is_one_of 1 16 (length name) ≡ true) }
{
    if is_player_name(name) {
        return Ok(Name::from_vec(Vec::from_slice(alloc, name)?));
    }
    Err(ScriptFault::BadPlayer)
}

fn is_player_name(name: &[u8]) -> bool
    ensures { result ≡ is_player_name name.now }
{
    is_name_length(name) && are_name_bytes(name)
}

fn is_name_length(name: &[u8]) -> bool
    ensures { result ≡ is_one_of 1 16 (length name.now) }
{
    1 <= name.len() && name.len() <= 16
}

fn are_name_bytes(name: &[u8]) -> bool
    ensures { result ≡ list_all is_name_byte name.now }
{
    name.iter().all(|b| is_name_byte(*b))
}

fn is_name_byte(b: u8) -> bool
    ensures { result ≡ is_name_byte b }
{
    matches!(b, b'A'..=b'Z' | b'a'..=b'z' | b'0'..=b'9' | b'_')
}
