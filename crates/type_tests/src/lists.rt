//! A list of cells is read through its bound.

use crate::terms::content;
use edit_terms::{BlockState, CellList, Content, Entity, Pos, Stretch};
use std::alloc::Global;
use std::sync::Arc;

/// A list of one position.
#[derive(Drop)]
struct Single {
    at: Pos,
    content: Content,
}

impl CellList for Single {
    ghost use Rattle.std.specs.Prelude.{[], ◌∷◌};

    ghost cells = { λ s. (s.at, s.content) ∷ [] };

    fn len(&self) -> u32 {
        1
    }

    fn at(&self, _i: u32) -> Pos {
        self.at
    }

    fn state(&self, _i: u32) -> &BlockState {
        &self.content.state
    }

    fn entity(&self, i: u32) -> Option<&Arc<Entity>> {
        if i == 0 {
            self.content.entity.as_ref()
        } else {
            None
        }
    }

    fn reach(&self, _i: u32) -> u32 {
        1
    }

    fn stretch(&self, _i: u32) -> Option<Stretch> {
        None
    }
}

/// How many stretches of one content a list is walked in.
fn stretches<L: CellList>(list: &L) -> u32 {
    let mut count = 0;
    let mut i = 0;
    while i < list.len() {
        i += list.reach(i);
        count += 1;
    }
    count
}

/// A chest with an entity at -1,2,3.
fn chest(alloc: Global) -> Option<Single> {
    let content = content(alloc, b"chest", b"before", b"")?;
    Some(Single {
        at: Pos { x: -1, y: 2, z: 3 },
        content,
    })
}

fn is_read(alloc: Global) -> Option<bool> {
    let list = chest(alloc)?;
    let is_there = list.len() == 1 && list.at(0) == Pos { x: -1, y: 2, z: 3 };
    let is_named = list.state(0).name() == b"minecraft:chest".as_slice();
    let has_entity = list.entity(0)?.before() == b"before".as_slice();
    Some(is_there && is_named && has_entity && list.entity(1).is_none())
}

fn stretches_of_one(alloc: Global) -> Option<u32> {
    Some(stretches(&chest(alloc)?))
}

#[test]
fn list_of_one_chest(rt: HostRuntime) {
    assert_eq!(rt; is_read(rt.alloc()), Some(true));
    assert_eq!(rt; stretches_of_one(rt.alloc()), Some(1));
}
