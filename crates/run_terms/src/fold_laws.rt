//! Laws of the serial fold, each the clause of a function that does nothing.

ghost use Rattle.std.specs.Prelude.{List, ℕ};
ghost use Rattle.run_terms.specs.Workload.{Workload};
ghost use Rattle.run_terms.specs.Fold.{FollowsFromEarlier};
ghost use Rattle.run_terms.specs.Prefix.{KeepResults};
ghost use Rattle.run_terms.specs.Entities.{EntitiesComeFromTheOpeningWorld};

/// The world after a ticket follows from the worlds after earlier ones: clipboards hold what stood
/// before the tickets that copied them, and undo and redo take the changes of the tickets of those edits.
#[tactic(auto, using(crate::proofs::FoldLemmas::follows_from_earlier))]
pub fn worlds_follow_from_earlier_worlds()
    ensures { (case : Workload) (order : List ℕ) (ticket : ℕ) → FollowsFromEarlier case order ticket }
{}

/// Each entity of a world of the fold is one of the opening world's, whatever the commands.
#[tactic(auto, using(crate::proofs::EntityLemmas::entities_come_from_the_opening_world))]
pub fn entities_come_from_the_opening_world()
    ensures { (case : Workload) (order : List ℕ) → EntitiesComeFromTheOpeningWorld case order }
{}

/// What the first tickets of an order leave is the same under a longer order: the same commands make the same worlds
/// by the same changes.
#[tactic(auto, using(crate::proofs::PrefixLemmas::keep_results))]
pub fn first_tickets_keep_their_results()
    ensures { (case : Workload) (order more : List ℕ) → KeepResults case order more }
{}
