//! Loads and reads the files of a run.

ghost use Rattle.std.specs.Prelude.{◌≡◌, suc, ◌≤◌, ◌<◌, true, false, length, map, string_bytes, IfOk, IfErr, All};
ghost use Rattle.run_ports.specs.Store.{IsLater};
ghost use Rattle.edit_terms.specs.Grid.{world_of};
ghost use Rattle.sponge_schematic.specs.Read.{loaded_of, IsWritable};
ghost use Rattle.run_terms.specs.Limits.{IsScriptWithin};
ghost use Rattle.command_syntax.specs.Player.{is_player_name};
ghost use Rattle.edit_top.specs.Words.{names_view};
ghost use Rattle.edit_top.specs.Reading.{world_limit, HasWorld, HasScript, has_player, AreAllScripts, IsWorldCause, refusal, IsLoadCause, IsScriptCause, IsOfScript, StopsAtScript};

use crate::status::Status;
use crate::words::Names;
use command_syntax::{ScriptFault, read_script};
use edit_terms::Script;
use run_ports::{LoadError, Shelf};
use sponge_schematic::{World, WorldFault, read_world};
use std::alloc::Global;

const WORLD_LIMIT: u64 = 268_435_456;

const SCRIPT_LIMIT: u64 = 1_048_576;

/// Loads and reads the world.
#[tactic(auto, using(crate::proofs::Writable::fails_with))]
pub(crate) fn load_world<F: Shelf>(
    alloc: Global,
    names: &Names<'_>,
    shelf: &mut F,
) -> Result<World, Status>
    ensures world { IfOk result (λ w. HasWorld (F.seen shelf.old).files (names_view names.now) (loaded_of w)) }
    ensures writable { IfOk result (λ w. IsWritable w.carried (world_of w.grid)) }
    ensures few { IfOk result (λ w. length w.carried.loose ≤ world_limit) }
    ensures cause { IfErr result (IsWorldCause (names_view names.now) (F.seen shelf.old) (F.seen shelf.new)) }
    ensures stays { (F.seen shelf.new).files ≡ (F.seen shelf.old).files }
    ensures later { IsLater (F.seen shelf.old) (F.seen shelf.new) }
{
    match shelf.load(alloc, names.world, WORLD_LIMIT) {
        Err(LoadError::Failed) => Err(Status::ReadFault { file: 0 }),
        Err(LoadError::TooLong) => Err(Status::TooLong { file: 0 }),
        Err(LoadError::Memory) => Err(Status::OutOfMemory),
        Ok(bytes) => match read_world(alloc, &bytes) {
            Err(WorldFault::Memory) => Err(Status::OutOfMemory),
            Err(fault) => Err(Status::WorldRefused { fault }),
            Ok(world) => Ok(world),
        },
    }
}

/// Loads and reads the scripts in order.
pub(crate) fn load_scripts<F: Shelf>(
    alloc: Global,
    names: &[String],
    shelf: &mut F,
) -> Result<Vec<Script>, Status>
    requires few { length names.now ≤ 64 }
    ensures scripts { IfOk result (λ scripts. AreAllScripts (F.seen shelf.old).files (map string_bytes names.now) scripts.items) }
    ensures within { IfOk result (λ scripts. All IsScriptWithin scripts.items) }
    ensures named { IfOk result (λ scripts. All (λ script. is_player_name script.player ≡ true) scripts.items) }
    ensures cause { IfErr result (StopsAtScript (map string_bytes names.now) (F.seen shelf.old) (F.seen shelf.new)) }
    ensures stays { (F.seen shelf.new).files ≡ (F.seen shelf.old).files }
    ensures later { IsLater (F.seen shelf.old) (F.seen shelf.new) }
{
    let mut scripts = Vec::new(alloc);
    for name in names {
        let script = load_script(alloc, name.as_str(), &scripts, shelf)?;
        scripts.push(script)?;
    }
    Ok(scripts)
}

/// Loads and reads the script behind the earlier ones.
fn load_script<F: Shelf>(
    alloc: Global,
    name: &str,
    earlier: &[Script],
    shelf: &mut F,
) -> Result<Script, Status>
    requires few { length earlier.now < 64 }
    ensures script { IfOk result (λ script. HasScript (F.seen shelf.old).files name.now script) }
    ensures within { IfOk result IsScriptWithin }
    ensures named { IfOk result (λ script. is_player_name script.player ≡ true) }
    ensures new { IfOk result (λ script. has_player earlier.now script.player ≡ false) }
    ensures cause { IfErr result (IsScriptCause name.now earlier.now (F.seen shelf.old) (F.seen shelf.new)) }
    ensures number { IfErr result (IsOfScript (suc (length earlier.now))) }
    ensures stays { (F.seen shelf.new).files ≡ (F.seen shelf.old).files }
    ensures later { IsLater (F.seen shelf.old) (F.seen shelf.new) }
{
    let number = earlier.len() as u32 + 1;
    let script = load_numbered(alloc, name, number, shelf)?;
    if has_player(earlier, script.player.as_slice()) {
        return Err(Status::DuplicatePlayer { script: number });
    }
    Ok(script)
}

/// Loads and reads the script of this number.
fn load_numbered<F: Shelf>(
    alloc: Global,
    name: &str,
    number: u32,
    shelf: &mut F,
) -> Result<Script, Status>
    ensures script { IfOk result (λ script. HasScript (F.seen shelf.old).files name.now script) }
    ensures within { IfOk result IsScriptWithin }
    ensures named { IfOk result (λ script. is_player_name script.player ≡ true) }
    ensures cause { IfErr result (IsLoadCause name.now (F.seen shelf.old) (F.seen shelf.new)) }
    ensures number { IfErr result (IsOfScript number) }
    ensures stays { (F.seen shelf.new).files ≡ (F.seen shelf.old).files }
    ensures later { IsLater (F.seen shelf.old) (F.seen shelf.new) }
{
    match shelf.load(alloc, name, SCRIPT_LIMIT) {
        Err(LoadError::Failed) => Err(Status::ReadFault { file: number }),
        Err(LoadError::TooLong) => Err(Status::TooLong { file: number }),
        Err(LoadError::Memory) => Err(Status::OutOfMemory),
        Ok(bytes) => match read_script(alloc, &bytes) {
            Ok(script) => Ok(script),
            Err(fault) => Err(refusal(number, fault)),
        },
    }
}

/// The ending of a run whose script of this number has this fault.
fn refusal(number: u32, fault: ScriptFault) -> Status
    ensures { result ≡ refusal number fault }
{
    match fault {
        ScriptFault::Memory => Status::OutOfMemory,
        fault => Status::ScriptRefused {
            script: number,
            fault,
        },
    }
}

/// One of these scripts is the player's.
fn has_player(scripts: &[Script], player: &[u8]) -> bool
    ensures { result ≡ has_player scripts.now player.now }
{
    scripts
        .iter()
        .any(|script| script.player.as_slice() == player)
}
