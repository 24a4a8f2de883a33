//! Carries a command out on a canvas.

ghost use Rattle.std.specs.Prelude.{◌≡◌, ◌<◌, true, false, All, IfOk, IfSome, length, Some, None, option_map, if◌then◌else◌, [], List, ℕ};
ghost use Rattle.std.specs.Option.{unwrap_or};
ghost use Rattle.edit_terms.specs.declared.step.Step.TheVariants.{Job};
ghost use Rattle.edit_terms.specs.Area.{volume};
ghost use Rattle.plain_effects.specs.Jobs.{IsOfItself};
ghost use Rattle.plain_terms.specs.Shown.{IsNumbered};
ghost use Rattle.run_terms.specs.Effect.{effect_at};
ghost use Rattle.run_terms.specs.Fold.{edits_taken, edits_taken_by};
ghost use Rattle.run_terms.specs.SessionLimits.{IsSpecWithin, IsStepWithin};
ghost use Rattle.serial_model.specs.Copying.{is_copying, is_copying_work};
ghost use Rattle.serial_model.specs.Recorded.{IsRecord, IsCarriedOut, task_recorded};
ghost use Rattle.world_canvas.specs.Canvas.{shown};
ghost use Rattle.world_canvas.specs.Changes.{IsRewritten};
ghost use Rattle.world_canvas.specs.Proposals.{proposals_for};
ghost use Rattle.world_canvas.specs.Restoring.{restored, changes_taken, before_of, after_of};

use crate::recorded::Recorded;
use edit_terms::{Spec, Step, Work};
use memory::Memory;
use plain_effects::{Job, proposed};
use std::alloc::Global;
use world_canvas::{Canvas, CellChange, Proposals};

/// Carries out what a player's command is, and tells its changes.
#[tactic(auto, using(crate::proofs::CarryingLemmas::settled_is_nothing, crate::proofs::CarryingLemmas::refused_is_nothing, crate::proofs::CarryingLemmas::job_is_done))]
pub(crate) fn carry_out(
    alloc: Global,
    seed: u64,
    ticket: u32,
    canvas: &mut Canvas,
    recorded: &Recorded,
    step: &Step,
) -> Result<Vec<CellChange>, Memory>
    requires recorded { IsRecord canvas.old recorded.now }
    requires edits { All (λ n. n < length recorded.now.changes) (edits_taken_by step.now) }
    requires within { IsStepWithin step.now }
    ensures { IfOk result (λ changes. IsCarriedOut (task_recorded canvas.old recorded.now seed ticket) step.now canvas.old canvas.new changes.items) }
{
    match step {
        Step::Settled => Ok(no_changes(alloc)),
        Step::Refused(_) => Ok(no_changes(alloc)),
        Step::Job(spec) => Ok(work(alloc, seed, ticket, canvas, recorded, spec)?),
    }
}

/// No changes. Takes no memory.
fn no_changes(alloc: Global) -> Vec<CellChange>
    ensures { result.items ≡ [] }
{
    Vec::new(alloc)
}

/// Carries out a resolved command.
#[tactic(auto, using(crate::proofs::CarryingLemmas::undo_is_effect, crate::proofs::CarryingLemmas::redo_is_effect))]
fn work(
    alloc: Global,
    seed: u64,
    ticket: u32,
    canvas: &mut Canvas,
    recorded: &Recorded,
    spec: &Spec,
) -> Result<Vec<CellChange>, Memory>
    requires recorded { IsRecord canvas.old recorded.now }
    requires edits { All (λ n. n < length recorded.now.changes) (edits_taken spec.now.work) }
    requires within { IsSpecWithin spec.now }
    ensures { IfOk result (λ changes. IsRewritten (effect_at (task_recorded canvas.old recorded.now seed ticket spec.now) (shown canvas.old)) canvas.old canvas.new changes.items) }
{
    match &spec.work {
        Work::Undo { steps } => Ok(undo(alloc, canvas, recorded, steps.as_slice())?),
        Work::Redo { steps } => Ok(redo(alloc, canvas, recorded, steps.as_slice())?),
        _ => rewrite(alloc, seed, ticket, canvas, recorded, spec),
    }
}

/// Takes edits of a player back.
fn undo(
    alloc: Global,
    canvas: &mut Canvas,
    recorded: &Recorded,
    edits: &[u32],
) -> Result<Vec<CellChange>, Memory>
    requires recorded { IsRecord canvas.old recorded.now }
    requires edits { All (λ n. n < length recorded.now.changes) edits.now }
    ensures { IfOk result (λ changes. IsRewritten (restored before_of (changes_taken canvas.old.kinds recorded.now.changes edits.now) (shown canvas.old)) canvas.old canvas.new changes.items) }
{
    Ok(canvas.take_back(alloc, edits, recorded.changes())?)
}

/// Does edits of a player again.
fn redo(
    alloc: Global,
    canvas: &mut Canvas,
    recorded: &Recorded,
    edits: &[u32],
) -> Result<Vec<CellChange>, Memory>
    requires recorded { IsRecord canvas.old recorded.now }
    requires edits { All (λ n. n < length recorded.now.changes) edits.now }
    ensures { IfOk result (λ changes. IsRewritten (restored after_of (changes_taken canvas.old.kinds recorded.now.changes edits.now) (shown canvas.old)) canvas.old canvas.new changes.items) }
{
    Ok(canvas.do_again(alloc, edits, recorded.changes())?)
}

/// Carries out a resolved command whose effect follows from the world before it.
fn rewrite(
    alloc: Global,
    seed: u64,
    ticket: u32,
    canvas: &mut Canvas,
    recorded: &Recorded,
    spec: &Spec,
) -> Result<Vec<CellChange>, Memory>
    requires recorded { IsRecord canvas.old recorded.now }
    requires work { IsOfItself spec.now.work }
    requires within { IsSpecWithin spec.now }
    ensures { IfOk result (λ changes. IsRewritten (effect_at (task_recorded canvas.old recorded.now seed ticket spec.now) (shown canvas.old)) canvas.old canvas.new changes.items) }
{
    let proposals = proposals(alloc, seed, ticket, canvas, recorded, spec)?;
    canvas.write(alloc, &proposals)
}

/// What the command proposes for the world as it is.
#[tactic(auto, using(crate::proofs::JobLemmas::few_noise_leaves, crate::proofs::JobLemmas::few_copies, crate::proofs::JobLemmas::copied_on_map))]
fn proposals(
    alloc: Global,
    seed: u64,
    ticket: u32,
    canvas: &Canvas,
    recorded: &Recorded,
    spec: &Spec,
) -> Result<Proposals, Memory>
    requires recorded { IsRecord canvas.now recorded.now }
    requires work { IsOfItself spec.now.work }
    requires within { IsSpecWithin spec.now }
    ensures proposals { IfOk result (λ ps. ps ≡ proposals_for (effect_at (task_recorded canvas.now recorded.now seed ticket spec.now) (shown canvas.now)) (shown canvas.now)) }
    ensures within { IfOk result (λ ps. All (λ p. p.index < volume canvas.now.area) ps) }
{
    let blocks = canvas.blocks();
    let earlier = canvas.earlier(copied_or_now(canvas, recorded));
    let job = Job {
        spec,
        seed,
        ticket,
        earlier: &earlier,
    };
    Ok(proposed(alloc, &job, &blocks)?)
}

/// The numbers of all contents as they stood when the clipboard was copied, and else as they are.
fn copied_or_now<'a>(canvas: &'a Canvas, recorded: &'a Recorded) -> &'a [u32]
    requires { IsRecord canvas.now recorded.now }
    ensures value { result.now ≡ unwrap_or recorded.now.copied canvas.now.cells }
    ensures numbered { IsNumbered canvas.now.area canvas.now.kinds result.now }
{
    canvas.well_formed();
    match &recorded.copied {
        None => canvas.cells(),
        Some(cells) => cells.as_slice(),
    }
}

/// The numbers of all contents, where the command copies.
pub(crate) fn copied_by(
    alloc: Global,
    canvas: &Canvas,
    step: &Step,
) -> Result<Option<Vec<u32>>, Memory>
    ensures { IfOk result (λ copied. option_map (λ cells. cells.items) copied ≡ (if is_copying step.now then Some canvas.now.cells else None)) }
{
    match step {
        Step::Job(spec) => copied_by_work(alloc, canvas, &spec.work),
        _ => Ok(None),
    }
}

fn copied_by_work(alloc: Global, canvas: &Canvas, work: &Work) -> Result<Option<Vec<u32>>, Memory>
    ensures { IfOk result (λ copied. option_map (λ cells. cells.items) copied ≡ (if is_copying_work work.now then Some canvas.now.cells else None)) }
{
    if !is_copying(work) {
        return Ok(None);
    }
    let cells = Vec::from_slice(alloc, canvas.cells())?;
    Ok(Some(cells))
}

/// Whether the clipboard is set by it.
fn is_copying(work: &Work) -> bool
    ensures { result ≡ is_copying_work work.now }
{
    match work {
        Work::Copy { .. } | Work::Cut { .. } => true,
        _ => false,
    }
}
