//! A player while the fold runs.

ghost use Rattle.std.specs.Prelude.{◌≡◌, ◌≤◌, map, IfOk};
ghost use Rattle.std.specs.List.{range_with_len};
ghost use Rattle.serial_model.specs.Starting.{starting_player};

use crate::recorded::Recorded;
use memory::Memory;
use player_session::Session;
use std::alloc::Global;

/// A player's session, and what is recorded of the player's commands so far.
#[derive(Drop)]
pub(crate) struct Player {
    pub(crate) session: Session,
    pub(crate) recorded: Recorded,
}

/// The player of a number before the first command.
fn start(alloc: Global, depth: u32, number: u32) -> Result<Player, Memory>
    requires low { 1 ≤ depth }
    requires high { depth ≤ 1000 }
    ensures { IfOk result (λ player. player ≡ starting_player depth number) }
{
    Ok(Player {
        session: Session::start(alloc, number, depth)?,
        recorded: Recorded::nothing(alloc),
    })
}

/// So many players before their first commands.
pub(crate) fn start_all(alloc: Global, depth: u32, count: u32) -> Result<Vec<Player>, Memory>
    requires low { 1 ≤ depth }
    requires high { depth ≤ 1000 }
    ensures { IfOk result (λ players. players.items ≡ map (starting_player depth) (range_with_len 0 count)) }
{
    let mut players = Vec::new(alloc);
    for number in 0..count {
        players.push(start(alloc, depth, number)?)?;
    }
    Ok(players)
}
