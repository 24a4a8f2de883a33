//! A player's next command.

ghost use Rattle.std.specs.Prelude.{◌≡◌, IfOk};
ghost use Rattle.run_terms.specs.Reply.{reply_to, reply_to_work};
ghost use Rattle.serial_model.specs.Acted.{IsActed};
ghost use Rattle.serial_model.specs.Ready.{IsReady};

use crate::carrying::{carry_out, copied_by};
use crate::player::Player;
use edit_terms::{Command, Reply, Step, Work};
use memory::Memory;
use std::alloc::Global;
use world_canvas::Canvas;

/// Takes a player's next command: its effect on the world, its reply, and what is to be recorded of it.
#[tactic(auto, using(run_terms::proofs::SessionLimitLemmas::step_within))]
pub(crate) fn act(
    alloc: Global,
    seed: u64,
    ticket: u32,
    canvas: &mut Canvas,
    player: &mut Player,
    command: &Command,
) -> Result<Reply, Memory>
    requires { IsReady canvas.old player.old command.now }
    ensures { IfOk result (IsActed seed ticket canvas.old canvas.new player.old player.new command.now) }
{
    let step = player.session.next(alloc, command)?;
    let copied = copied_by(alloc, canvas, &step)?;
    let changes = carry_out(alloc, seed, ticket, canvas, &player.recorded, &step)?;
    let Ok(changed) = u32::try_from(changes.len()) else {
        return Err(Memory);
    };
    let reply = reply_to(&step, changed);
    player.recorded.add(copied, changes)?;
    Ok(reply)
}

/// The reply to a command that changed so many positions.
fn reply_to(step: &Step, changed: u32) -> Reply
    ensures { result ≡ reply_to step.now changed }
{
    match step {
        Step::Settled => Reply::Accepted,
        Step::Refused(refusal) => Reply::Refused(*refusal),
        Step::Job(spec) => reply_to_work(&spec.work, changed),
    }
}

fn reply_to_work(work: &Work, changed: u32) -> Reply
    ensures { result ≡ reply_to_work work.now changed }
{
    match work {
        Work::Copy { .. } => Reply::Accepted,
        _ => Reply::Changed(changed),
    }
}
