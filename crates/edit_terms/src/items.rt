ghost use Rattle.std.specs.Prelude.{◌≡◌, IfOk};
ghost use Rattle.std.specs.Arc.{arc_value};

use crate::try_copy::TryCopy;
use memory::Memory;
use std::alloc::Global;
use std::hash::{Hash, Hasher};
use std::marker::Model;
use std::sync::Arc;

/// A list, which contracts see as the list of its items.
///
/// It either owns them or shares them with its copies; nothing but time and room tells the two apart.
#[derive(Debug, Drop)]
pub struct Items<T> {
    held: HeldItems<T>,
}

#[derive(Debug, Drop)]
enum HeldItems<T> {
    Own(Vec<T>),
    Shared(Arc<Vec<T>>),
}

/// A name as bytes: of a player, a block, a property's key or a property's value.
pub type Name = Items<u8>;

impl<T> Model for Items<T> {
    ghost use Rattle.std.specs.Prelude.{List};
    ghost use Rattle.std.specs.Coded.{coded_list};

    ghost Value = { List T };

    ghost coded = { coded_list T.code };

    ghost use Rattle.edit_terms.specs.HeldItems.{items_held};

    ghost view = { λ list. items_held list.held };
}

impl<T> Items<T> {
    /// The list of these items. Takes no memory.
    pub fn from_vec(items: Vec<T>) -> Items<T>
        ensures { result ≡ items.items }
    {
        Items {
            held: HeldItems::Own(items),
        }
    }

    /// The list of the items of a shared vector. Takes no memory.
    fn from_shared(items: Arc<Vec<T>>) -> Items<T>
        ensures { result ≡ (arc_value items).items }
    {
        Items {
            held: HeldItems::Shared(items),
        }
    }

    /// The items in order.
    pub fn as_slice(&self) -> &[T]
        ensures { result.now ≡ self.now }
    {
        match &self.held {
            HeldItems::Own(items) => items.as_slice(),
            HeldItems::Shared(items) => items.as_slice(),
        }
    }
}

impl<T: Drop> Items<T> {
    /// The same list, which shares its items with its further copies.
    pub fn share(self, alloc: Global) -> Result<Items<T>, Memory>
        ensures { IfOk result (λ shared. shared ≡ self) }
    {
        let items = match self.held {
            HeldItems::Own(items) => Arc::new(alloc, items)?,
            HeldItems::Shared(items) => items,
        };
        Ok(Items::from_shared(items))
    }
}

impl<T: TryCopy + Drop> Items<T> {
    /// The same list once more, which shares its items with further copies: a list that shares them gets
    /// a further owner, and of one that owns them each item is copied.
    pub fn copy(&self, alloc: Global) -> Result<Items<T>, Memory>
        ensures { IfOk result (λ copied. copied ≡ self.now) }
    {
        let items = match &self.held {
            HeldItems::Own(items) => Arc::new(alloc, copied(alloc, items)?)?,
            HeldItems::Shared(items) => Arc::try_clone(items)?,
        };
        Ok(Items::from_shared(items))
    }
}

fn copied<T: TryCopy + Drop>(alloc: Global, items: &[T]) -> Result<Vec<T>, Memory>
    ensures { IfOk result (λ copied. copied.items ≡ items.now) }
{
    let mut copied = Vec::with_capacity(alloc, items.len())?;
    for item in items {
        copied.push(item.try_copy(alloc)?)?;
    }
    Ok(copied)
}

impl Name {
    /// The same bytes once more.
    pub fn copy(&self, alloc: Global) -> Result<Name, Memory>
        ensures { IfOk result (λ copied. copied ≡ self.now) }
    {
        Ok(Name::from_vec(Vec::from_slice(alloc, self.as_slice())?))
    }
}

impl<T: PartialEq> PartialEq for Items<T> {
    ghost use Rattle.std.proofs.Common.{rules};
    ghost use Rattle.std.specs.Cmp.Lexicographic.{pointwise};
    ghost use Rattle.std.specs.Cmp.Rules.{comparing};

    ghost eq = { pointwise T.eq };

    ghost laws = { Prim.search (comparing, rules) };

    fn eq(&self, other: &Items<T>) -> bool {
        self.as_slice() == other.as_slice()
    }
}

impl<T: Eq> Eq for Items<T> {
    ghost use Rattle.std.proofs.Common.{rules};
    ghost use Rattle.std.specs.Cmp.Rules.{comparing};

    ghost laws = { Prim.search (comparing, rules) };
}

impl<T: Hash> Hash for Items<T> {
    ghost use Rattle.std.specs.Hash as fed;
    ghost use Rattle.std.specs.Hash.{items_Alike};

    ghost hash_input = { fed.slice T.hash_input };

    ghost respects_eq = { (items_Alike (record { fed = T.respects_eq })).fed };

    fn hash<H: Hasher>(&self, state: &mut H) {
        self.as_slice().hash(state);
    }
}
