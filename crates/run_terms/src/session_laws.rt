//! Laws of sessions and of what commands do, each the clause of a function that does nothing.

ghost use Rattle.std.specs.Prelude.{◌≡◌, All, IsTrue, List, ℕ, Some};
ghost use Rattle.edit_terms.specs.declared.direction.Direction.{Direction};
ghost use Rattle.edit_terms.specs.declared.pos.Pos.{Pos};
ghost use Rattle.edit_terms.specs.declared.region.Selection.{Selection};
ghost use Rattle.edit_terms.specs.declared.script.Command.{Command};
ghost use Rattle.edit_terms.specs.declared.script.Line.{Line};
ghost use Rattle.edit_terms.specs.declared.step.Refusal.{Refusal};
ghost use Rattle.edit_terms.specs.Frame.{IsSelection};
ghost use Rattle.run_terms.specs.Limits.{is_command_within};
ghost use Rattle.run_terms.specs.Session.{Session, session_after, step_of_line, refusal_of, IsHistory, ChangesOnlyTheCount};
ghost use Rattle.run_terms.specs.SessionLimits.{IsSessionWithin, IsStepWithin};
ghost use Rattle.run_terms.specs.Effect.{ComesFromOneCopy};

/// A refused command changes nothing in its session but the count of commands.
#[tactic(auto, using(crate::proofs::SessionLemmas::refused_changes_the_count))]
pub fn refused_commands_change_nothing()
    ensures { (s : Session) (command : Command) (refusal : Refusal) → refusal_of s command ≡ Some refusal → ChangesOnlyTheCount s command }
{}

/// A history holds earlier commands of its player, at most as many as its depth, and its cursor stands
/// among them or at an end.
#[tactic(auto, using(crate::proofs::SessionLemmas::history_of_session))]
pub fn histories_keep_to_their_depth()
    ensures { (player depth : ℕ) (lines : List Line) → IsHistory (session_after player depth lines) }
{}

/// A session keeps its limits behind commands that keep theirs.
pub fn sessions_keep_limits()
    ensures { (player depth : ℕ) (lines : List Line) → All (λ line. IsTrue (is_command_within line.command)) lines → IsSessionWithin (session_after player depth lines) }
{}

/// What a command is in its session keeps its limits, where the script's commands keep theirs.
pub fn steps_keep_limits()
    ensures { (player depth : ℕ) (lines : List Line) → All (λ line. IsTrue (is_command_within line.command)) lines → (number : ℕ) → IsStepWithin (step_of_line player depth lines number) }
{}

/// At most one copy of a stack comes to a position.
#[tactic(auto, using(crate::proofs::StackLemmas::comes_from_one_copy))]
pub fn stacked_copies_lie_apart()
    ensures { (from : Selection) (to : Direction) (p : Pos) → IsSelection from → ComesFromOneCopy from to p }
{}
