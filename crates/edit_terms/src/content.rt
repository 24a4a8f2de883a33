ghost use Rattle.std.specs.Prelude.{◌≡◌, IfOk};

use crate::block_state::BlockState;
use crate::entity::Entity;
use memory::Memory;
use std::alloc::Global;
use std::hash::{Hash, Hasher};
use std::marker::Model;
use std::sync::Arc;

/// What stands at a position: a block state and perhaps an entity.
#[derive(Debug, Drop)]
pub struct Content {
    pub state: BlockState,
    pub entity: Option<Arc<Entity>>,
}

impl Model for Content {
    ghost use Rattle.std.specs.Prelude.{option_map};
    ghost use Rattle.std.specs.Arc.{arc_value};
    ghost use Rattle.edit_terms.specs.World.{BlockContent};

    ghost Value = { BlockContent };

    ghost view = { λ c. record { state = c.state; entity = option_map arc_value c.entity } };
}

impl Content {
    /// The same content once more; state and entity are shared.
    pub fn copy(&self, alloc: Global) -> Result<Content, Memory>
        ensures { IfOk result (λ copied. copied ≡ self.now) }
    {
        let entity = match &self.entity {
            None => None,
            Some(entity) => Some(Arc::try_clone(entity)?),
        };
        Ok(Content {
            state: self.state.copy(alloc)?,
            entity,
        })
    }
}

/// Two contents are equal where state and entity are, owned or shared.
impl PartialEq for Content {
    ghost use Rattle.std.specs.Cmp.{partial_equiv_from_equiv};
    ghost use Rattle.edit_terms.specs.Same.{same_content, content_equivalence};

    ghost eq = { same_content };

    ghost laws = { partial_equiv_from_equiv content_equivalence };

    fn eq(&self, other: &Content) -> bool {
        if self.state != other.state {
            return false;
        }
        match (&self.entity, &other.entity) {
            (None, None) => true,
            (Some(entity), Some(other)) => **entity == **other,
            _ => false,
        }
    }
}

impl Eq for Content {
    ghost use Rattle.edit_terms.specs.Same.{content_equivalence};

    ghost laws = { content_equivalence };
}

/// The state alone decides the hash, since few contents have an entity.
impl Hash for Content {
    ghost use Rattle.std.specs.Prelude.{◌++◌};
    ghost use Rattle.std.specs.Hash as fed;
    ghost use Rattle.std.specs.Hash.{same_Alike};
    ghost use Rattle.edit_terms.specs.Same.{content_decides};

    ghost hash_input = { λ c. fed.slice fed.u8 c.state.name ++ fed.slice (λ p. fed.slice fed.u8 p.0 ++ fed.slice fed.u8 p.1) c.state.properties };

    ghost respects_eq = { (same_Alike (λ c. fed.slice fed.u8 c.state.name ++ fed.slice (λ p. fed.slice fed.u8 p.0 ++ fed.slice fed.u8 p.1) c.state.properties) content_decides).fed };

    fn hash<H: Hasher>(&self, state: &mut H) {
        self.state.hash(state);
    }
}
