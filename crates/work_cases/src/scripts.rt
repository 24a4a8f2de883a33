//! Scripts of commands.

use case_lines::script_of;
use command_syntax::read_script;
use edit_terms::Script;
use std::alloc::Global;

/// The bytes of a player's script of these commands, with ` | ` between.
pub(crate) fn bytes_of(alloc: Global, commands: &str) -> Option<Vec<u8>> {
    let mut bytes = Vec::from_slice(alloc, b"player anna\n").ok()?;
    let lines = script_of(alloc, commands).ok()?;
    bytes.extend_from_slice(&lines).ok()?;
    Some(bytes)
}

/// The script of these bytes.
pub(crate) fn read(alloc: Global, bytes: &[u8]) -> Option<Script> {
    if bytes.len() > 1_048_576 {
        return None;
    }
    match read_script(alloc, bytes) {
        Ok(script) => Some(script),
        Err(_) => None,
    }
}

/// The script of a player of these commands.
pub(crate) fn one_script(alloc: Global, commands: &str) -> Option<Script> {
    let bytes = bytes_of(alloc, commands)?;
    read(alloc, &bytes)
}

/// The scripts of players, with ` || ` between.
pub(crate) fn all_scripts(alloc: Global, texts: &str) -> Option<Vec<Script>> {
    let mut scripts = Vec::new(alloc);
    for commands in texts.split(" || ") {
        let script = one_script(alloc, commands)?;
        scripts.push(script).ok()?;
    }
    Some(scripts)
}
