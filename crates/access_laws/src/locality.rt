//! Effects are local to chunks: laws, each the clauses of a function that does nothing.

ghost use Rattle.std.specs.Prelude.{◌≡◌, true, List, ℕ};
ghost use Rattle.edit_terms.specs.declared.clip.Source.{Source};
ghost use Rattle.edit_terms.specs.Area.{Area, is_world_box};
ghost use Rattle.edit_terms.specs.World.{World};
ghost use Rattle.run_terms.specs.Workload.{Workload};
ghost use Rattle.run_terms.specs.Effect.{Task};
ghost use Rattle.run_terms.specs.Limits.{IsWithinLimits};
ghost use Rattle.access_laws.specs.Locality.{ChangesLieInChunksWritten, ClipboardsDependOnChunksRead, EffectsDependOnChunksAccessed, IsAgreementByParts};

/// Worlds agree in chunks, place by place, exactly where they have the same part in each of them.
#[tactic(auto, using(crate::proofs::Parts::agreement_by_parts))]
pub fn agreement_is_by_parts()
    ensures { (area : Area) (chunks : List ℕ) (w v : World) → w.area ≡ area → v.area ≡ area → IsAgreementByParts area chunks w v }
{}

/// A ticket changes the world only in the chunks that its command writes; what it makes of them depends on the
/// world only in the chunks that the command reads and writes, and a clipboard only in those that its copy read.
#[tactic(auto, using(crate::proofs::Agreement::effects_depend, crate::proofs::Agreement::clipboards_depend))]
pub fn effects_are_local()
    ensures changes { (case : Workload) → IsWithinLimits case → is_world_box case.opening.area ≡ true →
        (order : List ℕ) (ticket : ℕ) → ChangesLieInChunksWritten case order ticket }
    ensures effects { (case : Workload) → IsWithinLimits case → (id : Source) (task : Task) (w v : World) →
        EffectsDependOnChunksAccessed case id task w v }
    ensures clipboards { (case : Workload) → IsWithinLimits case → (id : Source) (w v : World) →
        ClipboardsDependOnChunksRead case id w v }
{}
