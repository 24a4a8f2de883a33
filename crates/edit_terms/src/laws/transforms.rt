//! Laws of transforms: each function does nothing, and its clauses are the law.

ghost use Rattle.std.specs.Prelude.{◌≡◌, ℕ};
ghost use Rattle.edit_terms.specs.declared.pos.Pos.{Pos};
ghost use Rattle.edit_terms.specs.declared.direction.Direction.{Direction};
ghost use Rattle.edit_terms.specs.declared.direction.Direction.TheVariants.{North, East};
ghost use Rattle.edit_terms.specs.declared.transform.Transform.{Transform};
ghost use Rattle.edit_terms.specs.StateText.{State, IsState};
ghost use Rattle.edit_terms.specs.Transform.{times, then_turn, then_flip, quarter_turned_position, flipped_position, turned_position, source_position, quarter_turned_state, flipped_state, turned_state};

/// Four quarter turns are nothing.
pub fn four_quarter_turns()
    ensures positions { (r : Pos) → times 4 quarter_turned_position r ≡ r }
    ensures states { (s : State) → IsState s → times 4 quarter_turned_state s ≡ s }
{}

/// Two flips in one direction are nothing.
pub fn two_flips()
    ensures positions { (to : Direction) (r : Pos) → flipped_position to (flipped_position to r) ≡ r }
    ensures states { (to : Direction) (s : State) → IsState s → flipped_state to (flipped_state to s) ≡ s }
{}

/// A flip along z is one along x and two quarter turns.
pub fn flip_along_z()
    ensures positions { (r : Pos) → flipped_position North r ≡ times 2 quarter_turned_position (flipped_position East r) }
    ensures states { (s : State) → IsState s → flipped_state North s ≡ times 2 quarter_turned_state (flipped_state East s) }
{}

/// The inverse transform undoes a transform, and is undone by it.
pub fn inverse_transform()
    ensures undoes { (t : Transform) (r : Pos) → source_position t (turned_position t r) ≡ r }
    ensures undone { (t : Transform) (r : Pos) → turned_position t (source_position t r) ≡ r }
{}

/// Quarter turns after a transform are one transform.
pub fn turns_after_a_transform()
    ensures positions { (t : Transform) (quarters : ℕ) (r : Pos) →
        turned_position (then_turn t quarters) r ≡ times quarters quarter_turned_position (turned_position t r) }
    ensures states { (t : Transform) (quarters : ℕ) (s : State) → IsState s →
        turned_state (then_turn t quarters) s ≡ times quarters quarter_turned_state (turned_state t s) }
{}

/// A flip after a transform is one transform.
pub fn flip_after_a_transform()
    ensures positions { (t : Transform) (to : Direction) (r : Pos) →
        turned_position (then_flip t to) r ≡ flipped_position to (turned_position t r) }
    ensures states { (t : Transform) (to : Direction) (s : State) → IsState s →
        turned_state (then_flip t to) s ≡ flipped_state to (turned_state t s) }
{}

/// A transform makes of a state another one: its name stays, and its properties are of the form.
pub fn turned_states_are_states()
    ensures { (t : Transform) (s : State) → IsState s → IsState (turned_state t s) }
{}
