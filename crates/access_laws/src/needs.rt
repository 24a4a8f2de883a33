//! What effects depend on, what a ticket leaves alone, and where clipboards come from: laws, each the clause of a function
//! that does nothing.

ghost use Rattle.std.specs.Prelude.{◌≡◌, true, List, ℕ};
ghost use Rattle.edit_terms.specs.declared.clip.Source.{Source};
ghost use Rattle.edit_terms.specs.Area.{Area, is_world_box};
ghost use Rattle.edit_terms.specs.Clipboard.{CopiedBlocks};
ghost use Rattle.edit_terms.specs.World.{World};
ghost use Rattle.run_terms.specs.Workload.{Workload};
ghost use Rattle.run_terms.specs.Change.{Change};
ghost use Rattle.run_terms.specs.Effect.{Task};
ghost use Rattle.run_terms.specs.Limits.{IsWithinLimits};
ghost use Rattle.access_laws.specs.Needs.{ClipsAreOfEarlierCopies, EffectsDependOnNeeds, EffectsDependOnNeedsIn, OtherPartsStay};

/// What a job makes of a place depends on the world only at the place, by the states in its column of blocks, and at the
/// selected blocks that the job reads; on the clipboard only where its work needs one; and on the taken changes only by the
/// latest at the place.
#[tactic(auto, using(crate::proofs::ChunkEffects::effects_by_needs))]
pub fn effects_depend_on_needs()
    ensures { (task : Task) (copied : CopiedBlocks) (taken : List (List Change)) (w v : World) (index : ℕ) →
        EffectsDependOnNeeds task copied taken w v index }
{}

/// From two worlds that agree on a chunk and on what a job brings from elsewhere, the job makes worlds that agree on the chunk.
#[tactic(auto, using(crate::proofs::ChunkEffects::effects_in_chunk))]
pub fn effect_in_chunk()
    ensures { (area : Area) (chunk : ℕ) (task : Task) (copied : CopiedBlocks) (taken : List (List Change)) (w v : World) →
        EffectsDependOnNeedsIn area chunk task copied taken w v }
{}

/// A ticket that doesn't write a chunk leaves the world's part there as it was.
#[tactic(auto, using(crate::proofs::ChunkEffects::other_parts))]
pub fn other_parts_stay()
    ensures { (case : Workload) → IsWithinLimits case → is_world_box case.opening.area ≡ true →
        (order : List ℕ) (ticket : ℕ) → OtherPartsStay case order ticket }
{}

/// The clipboard that a command's job names was copied by an earlier command of the same player, and that command read
/// the clipboard's selection.
#[tactic(auto, using(crate::proofs::Copies::clips_of_copies))]
pub fn clips_are_of_earlier_commands()
    ensures { (case : Workload) → IsWithinLimits case → (id : Source) → ClipsAreOfEarlierCopies case id }
{}
