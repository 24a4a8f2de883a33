//! A player's commands, resolved in order.

ghost use Rattle.std.specs.Prelude.{◌≡◌, ◌≤◌, ◌<◌, All, IfOk, IsTrue, length};
ghost use Rattle.edit_terms.specs.declared.script.Line.{Line};
ghost use Rattle.run_terms.specs.Fold.{edits_taken_by, edits_taken};
ghost use Rattle.run_terms.specs.Limits.{is_command_within};
ghost use Rattle.command_plan.specs.ResolvedScripts.{IsResolved};

use crate::footprint::{Footprint, footprint_of};
use edit_terms::{Line, Step, Work, WorldBox};
use memory::Memory;
use player_session::Session;
use std::alloc::Global;

/// What each command of a player is, and which chunks it reads and writes by itself.
#[derive(Drop)]
pub(crate) struct ResolvedScript {
    pub(crate) steps: Vec<Step>,
    pub(crate) footprints: Vec<Footprint>,
}

/// The commands of a script.
#[tactic(auto, using(crate::proofs::ResolvedScriptLemmas::taken_none))]
pub(crate) fn resolved(
    alloc: Global,
    area: &WorldBox,
    player: u32,
    depth: u32,
    lines: &[Line],
) -> Result<ResolvedScript, Memory>
    requires low { 1 ≤ depth }
    requires high { depth ≤ 1000 }
    requires few { length lines.now ≤ 10000 }
    requires within { All (λ (line : Line). IsTrue (is_command_within line.command)) lines.now }
    ensures { IfOk result (λ script. IsResolved area.now player depth lines.now (length lines.now) script.steps.items script.footprints.items) }
{
    let mut session = Session::start(alloc, player, depth)?;
    let mut steps = Vec::with_capacity(alloc, lines.len())?;
    let mut footprints = Vec::with_capacity(alloc, lines.len())?;
    for line in lines {
        let step = session.next(alloc, &line.command)?;
        footprints.push(footprint_of(&step, area))?;
        steps.push(step)?;
    }
    Ok(ResolvedScript { steps, footprints })
}

/// The edits that a command takes, by their places in the script.
pub(crate) fn edits_of(step: &Step) -> &[u32]
    ensures { result.now ≡ edits_taken_by step.now }
{
    match step {
        Step::Job(spec) => edits_of_work(&spec.work),
        _ => &[],
    }
}

fn edits_of_work(work: &Work) -> &[u32]
    ensures { result.now ≡ edits_taken work.now }
{
    match work {
        Work::Undo { steps } => steps.as_slice(),
        Work::Redo { steps } => steps.as_slice(),
        _ => &[],
    }
}
