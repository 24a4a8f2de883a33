//! A world has one census: a law, the clause of a function that does nothing.

ghost use Rattle.std.specs.Prelude.{◌≡◌, ℕ, List};
ghost use Rattle.edit_terms.specs.World.{World};
ghost use Rattle.state_counts.specs.Counts.{IsCensus};

/// Two censuses of a world are the same list.
pub fn census_is_unique()
    ensures { (w : World) (a b : List (List ℕ × ℕ)) → IsCensus w a → IsCensus w b → a ≡ b }
{}
