//! Laws of undo and redo, each the clause of a function that does nothing.

ghost use Rattle.std.specs.Prelude.{List, ℕ};
ghost use Rattle.run_terms.specs.Workload.{Workload};
ghost use Rattle.run_terms.specs.Undo.{Undoes, Redoes, UndoRestores, RedoRestores, UndoInverts};

/// An undo of one edit brings back the contents from before it, whoever changed them since; all else
/// stays.
pub fn undo_restores()
    ensures { (case : Workload) (order : List ℕ) (undo edit : ℕ) → Undoes case order undo edit → UndoRestores case order undo edit }
{}

/// A redo of one edit brings back the contents from after it, whoever changed them since; all else stays.
pub fn redo_restores()
    ensures { (case : Workload) (order : List ℕ) (redo edit : ℕ) → Redoes case order redo edit → RedoRestores case order redo edit }
{}

/// With nothing changed between, an undo of one edit makes its changes the other way round and leaves the
/// world from before it, and a redo the world from after it.
pub fn undo_inverts()
    ensures { (case : Workload) (order : List ℕ) (undo edit : ℕ) → Undoes case order undo edit → UndoInverts case order undo edit }
{}
