//! What a job proposes.
ghost use Rattle.std.specs.Prelude.{◌≡◌, ◌<◌, ◌++◌, [], ◌∷◌, List, All, IfOk, OnOk, IfSome};
ghost use Rattle.std.specs.List.{filter_map};
ghost use Rattle.edit_terms.specs.Area.{volume};
ghost use Rattle.clipboard_transform.specs.Bounds.{IsOnMap};
ghost use Rattle.run_terms.specs.Change.{Change};
ghost use Rattle.run_terms.specs.Effect.{effect_at};
ghost use Rattle.world_canvas.specs.Proposals.{Proposal, proposal_at, proposals_for};
ghost use Rattle.plain_effects.specs.Jobs.{own_task, task_with, IsOfItself, HasFewNoise, HasFewCopies};

use crate::changes::changed_extent;
use crate::effect::effect;
use crate::job::Job;
use crate::section::section_of;
use crate::visit::visited;
use memory::Memory;
use plain_terms::Blocks;
use std::alloc::Global;
use world_canvas::Proposals;

/// What a job proposes for a world: the contents that differ after its work, in index order.
///
/// The work is neither an undo nor a redo, so that what it takes doesn't matter. Its mask and the global mask
/// have at most 4 noise leaves each, its clipboard was copied from a position on the map, and a stack or move
/// goes at most 1,000 times or blocks far.
#[tactic(auto, using(crate::proofs::ProposalLemmas::whatever_is_taken, crate::proofs::ProposalLemmas::proposed_within))]
pub fn proposed(alloc: Global, job: &Job<'_>, blocks: &Blocks<'_>) -> Result<Proposals, Memory>
    requires work { IsOfItself job.now.spec.work }
    requires masks { HasFewNoise job.now.spec }
    requires origin { IfSome job.now.spec.clip (λ c. IsOnMap c.origin) }
    requires counts { HasFewCopies job.now.spec.work }
    ensures proposals { IfOk result (λ ps. (taken : List (List Change)) → ps ≡ proposals_for (effect_at (task_with job.now taken) blocks.now) blocks.now) }
    ensures within { IfOk result (λ (ps : List Proposal). All (λ p. p.index < volume blocks.now.area) ps) }
{
    let proposals = own_proposals(alloc, job, blocks)?;
    Ok(proposals)
}

/// The same where the job takes no changes.
fn own_proposals(alloc: Global, job: &Job<'_>, blocks: &Blocks<'_>) -> Result<Proposals, Memory>
    requires work { IsOfItself job.now.spec.work }
    requires masks { HasFewNoise job.now.spec }
    requires origin { IfSome job.now.spec.clip (λ c. IsOnMap c.origin) }
    requires counts { HasFewCopies job.now.spec.work }
    ensures { IfOk result (λ ps. ps ≡ proposals_for (effect_at (own_task job.now) blocks.now) blocks.now) }
{
    let Some(extent) = changed_extent(job, blocks) else {
        return Ok(Proposals::none(alloc));
    };
    let area = blocks.area();
    let section = section_of(area, &extent);
    let places = visited(alloc, area, &section)?;
    let proposals = listed(alloc, job, blocks, &places)?;
    Ok(proposals)
}

/// What the job proposes at these places.
fn listed(
    alloc: Global,
    job: &Job<'_>,
    blocks: &Blocks<'_>,
    places: &[u32],
) -> Result<Proposals, Memory>
    requires work { IsOfItself job.now.spec.work }
    requires masks { HasFewNoise job.now.spec }
    requires origin { IfSome job.now.spec.clip (λ c. IsOnMap c.origin) }
    requires counts { HasFewCopies job.now.spec.work }
    requires places { All (λ index. index < volume blocks.now.area) places.now }
    ensures { IfOk result (λ ps. ps ≡ filter_map (proposal_at (effect_at (own_task job.now) blocks.now) blocks.now) places.now) }
{
    let mut proposals = Proposals::none(alloc);
    for place in places {
        propose(alloc, job, blocks, *place, &mut proposals)?;
    }
    Ok(proposals)
}

/// Appends what the job proposes at a place, if it does.
#[tactic(auto, using(crate::proofs::ProposalLemmas::content_stays, crate::proofs::ProposalLemmas::same_content_proposed, crate::proofs::ProposalLemmas::other_content_proposed))]
fn propose(
    alloc: Global,
    job: &Job<'_>,
    blocks: &Blocks<'_>,
    index: u32,
    proposals: &mut Proposals,
) -> Result<(), Memory>
    requires index { index < volume blocks.now.area }
    requires work { IsOfItself job.now.spec.work }
    requires masks { HasFewNoise job.now.spec }
    requires origin { IfSome job.now.spec.clip (λ c. IsOnMap c.origin) }
    requires counts { HasFewCopies job.now.spec.work }
    ensures { OnOk result (proposals.new ≡ proposals.old ++ filter_map (proposal_at (effect_at (own_task job.now) blocks.now) blocks.now) (index ∷ [])) }
{
    let Some(content) = effect(alloc, job, blocks, index)? else {
        return Ok(());
    };
    if *blocks.content(index) == content {
        return Ok(());
    }
    proposals.push(index, content)?;
    Ok(())
}
