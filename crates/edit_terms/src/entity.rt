ghost use Rattle.std.specs.Prelude.{◌≡◌};
ghost use Rattle.edit_terms.specs.World.{EntityTags};

use crate::items::Items;
use crate::pos::Pos;
use std::hash::{Hash, Hasher};
use std::marker::Model;
use std::sync::Arc;

/// What a block carries beside its state, as a chest's contents: the spellings of its named tags before
/// and after the place of the tag `Pos`. Nothing here judges the two byte lists.
#[derive(Debug, Drop)]
pub struct Entity {
    before: Vec<u8>,
    after: Vec<u8>,
}

/// Entities by position.
pub type Entities = Items<(Pos, Arc<Entity>)>;

impl Model for Entity {
    ghost use Rattle.edit_terms.specs.World.{EntityTags};

    ghost Value = { EntityTags };

    ghost view = { λ e. record { before = e.before.items; after = e.after.items } };
}

impl Entity {
    /// The entity of these two lists, which it doesn't judge. Takes no memory.
    pub fn new(before: Vec<u8>, after: Vec<u8>) -> Entity
        ensures { result ≡ record { before = before.items; after = after.items } }
    {
        Entity { before, after }
    }

    /// The spellings of the tags before `Pos`.
    pub fn before(&self) -> &[u8]
        ensures { result.now ≡ self.now.before }
    {
        &self.before
    }

    /// The spellings of the tags after `Pos`.
    pub fn after(&self) -> &[u8]
        ensures { result.now ≡ self.now.after }
    {
        &self.after
    }
}

/// Two entities are equal where their tags are, byte by byte.
impl PartialEq for Entity {
    ghost use Rattle.std.specs.Cmp.{partial_equiv_from_equiv};
    ghost use Rattle.edit_terms.specs.Same.{same_tags, tags_equivalence};

    ghost eq = { same_tags };

    ghost laws = { partial_equiv_from_equiv tags_equivalence };

    fn eq(&self, other: &Entity) -> bool {
        self.before() == other.before() && self.after() == other.after()
    }
}

impl Eq for Entity {
    ghost use Rattle.edit_terms.specs.Same.{tags_equivalence};

    ghost laws = { tags_equivalence };
}

impl Hash for Entity {
    ghost use Rattle.std.specs.Prelude.{◌++◌};
    ghost use Rattle.std.specs.Hash as fed;
    ghost use Rattle.std.specs.Hash.{same_Alike};
    ghost use Rattle.edit_terms.specs.Same.{tags_decides};

    ghost hash_input = { λ e. fed.slice fed.u8 e.before ++ fed.slice fed.u8 e.after };

    ghost respects_eq = { (same_Alike (λ e. fed.slice fed.u8 e.before ++ fed.slice fed.u8 e.after) tags_decides).fed };

    fn hash<H: Hasher>(&self, state: &mut H) {
        self.before().hash(state);
        self.after().hash(state);
    }
}
