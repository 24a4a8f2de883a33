//! Laws of properties and state texts: each function does nothing, and its clauses are the law.

ghost use Rattle.std.specs.Prelude.{◌≡◌, ◌↔◌, ℕ, true, List, [], Some, None, IsPermutation};
ghost use Rattle.std.specs.Option.{option_or};
ghost use Rattle.edit_terms.specs.StateText.{State, IsState, IsStateText, IsSomeStateText, is_rising, is_each_key_new, property_of, with_properties, sorted_properties, written_state, state_of_text, state_text_fault};

/// Properties of distinct keys, sorted by key, are those properties in another order, and their keys rise.
pub fn sorting_properties()
    ensures rising { (ps : List (List ℕ × List ℕ)) → is_rising (sorted_properties ps) ≡ true }
    ensures moved { (ps : List (List ℕ × List ℕ)) → is_each_key_new [] ps ≡ true → IsPermutation ps (sorted_properties ps) }
{}

/// Where properties are replaced or added, a key has the new value if there is one, and else the old one, and
/// the keys still rise.
pub fn replacing_properties()
    ensures values { (old ps : List (List ℕ × List ℕ)) (key : List ℕ) →
        property_of (with_properties old ps) key ≡ option_or (property_of ps key) (property_of old key) }
    ensures rising { (old ps : List (List ℕ × List ℕ)) → is_rising old ≡ true → is_rising (with_properties old ps) ≡ true }
{}

/// The written form of a state stands for it, and for no other state.
pub fn written_form()
    ensures stands { (s : State) → IsState s → IsStateText (written_state s) s }
    ensures alone { (s t : State) → IsState s → IsStateText (written_state s) t → s ≡ t }
{}

/// A text stands for one state at most.
pub fn one_state_a_text()
    ensures { (text : List ℕ) (s t : State) → IsStateText text s → IsStateText text t → s ≡ t }
{}

/// A text is read as the state that it stands for, and has a fault exactly where it stands for none.
pub fn states_and_faults()
    ensures state { (text : List ℕ) (s : State) → (state_of_text text ≡ Some s) ↔ IsStateText text s }
    ensures fault { (text : List ℕ) → (state_text_fault text ≡ None) ↔ IsSomeStateText text }
{}
