//! What a world's file says beside the world.

ghost use Rattle.std.specs.Prelude.{◌≡◌};
ghost use Rattle.sponge_schematic.specs.Carried.{bare_tags};

use nbt_tags::{Items, Named, Tag};
use std::marker::Model;

/// What a world's file says beside the world: the version of the game's data; where it has the list
/// BlockEntities, the list's element type and its entries that name no block; and the tags that the format
/// leaves open.
#[derive(Debug, Drop)]
pub struct Carried {
    data_version: i32,
    rest: Option<Rest>,
}

/// What is carried beside the version. A bare file has none of it.
#[derive(Debug, Drop)]
pub(crate) struct Rest {
    /// The element type of the list BlockEntities, where the file has the list.
    pub(crate) element: Option<u8>,
    /// The entries of the list that name no block of the box.
    pub(crate) loose: Items<Tag>,
    /// The tags that the format leaves open.
    pub(crate) others: Items<Named>,
    /// About how many bytes the entries and the other tags have, for room.
    pub(crate) room: usize,
}

impl Model for Carried {
    ghost use Rattle.sponge_schematic.specs.Carried.{CarriedTags};
    ghost use Rattle.sponge_schematic.specs.Kept.{kept_tags};
    ghost use Rattle.sponge_schematic.specs.Rows.{IsKept};
    ghost use Rattle.std.specs.Coded.{codes};
    ghost use Rattle.nbt_tags.specs.contracts.tag.Named as named_type;
    ghost use Rattle.nbt_tags.specs.contracts.tag.Tag as tag_type;

    ghost Value = { CarriedTags };

    ghost coded = { Prim.hlevel (codes, tag_type.the_row.coded, named_type.the_row.coded) };

    ghost view = { λ c. kept_tags c.data_version c.rest };

    ghost invariant = { λ c. ∥ IsKept (kept_tags c.data_version c.rest) ∥₁ };
}

impl Carried {
    ghost use Rattle.std.specs.Prelude.{Some};
    ghost use Rattle.sponge_schematic.specs.Carried.{CarriedTags};
    ghost use Rattle.sponge_schematic.specs.Kept.{kept_tags};
    ghost use Rattle.sponge_schematic.specs.Rows.{IsKept};

    /// What a file said beside its world.
    pub(crate) fn new(data_version: i32, rest: Rest) -> Carried
        requires { IsKept (kept_tags data_version (Some rest)) }
        ensures { result ≡ record { data_version = data_version; element = rest.element; loose = rest.loose; others = rest.others } }
    {
        Carried {
            data_version,
            rest: Some(rest),
        }
    }

    /// The version of the game's data alone, as the file of a new world has it. Takes no memory.
    pub fn bare(&self) -> Carried
        ensures { result ≡ bare_tags self.now.data_version }
    {
        Carried {
            data_version: self.data_version,
            rest: None,
        }
    }

    /// Does nothing: the entries can be written again.
    pub(crate) fn well_formed(&self)
        ensures { IsKept self.now }
    {
        let _version = &self.data_version;
    }

    /// The version of the game's data.
    pub(crate) fn data_version(&self) -> &i32
        ensures { result.now ≡ self.now.data_version }
    {
        &self.data_version
    }

    /// The element type of the list BlockEntities, where the file has the list.
    pub(crate) fn element(&self) -> Option<u8>
        ensures { result ≡ self.now.element }
    {
        match &self.rest {
            None => None,
            Some(rest) => rest.element,
        }
    }

    /// The entries of that list that name no block of the box.
    pub(crate) fn loose(&self) -> &[Tag]
        ensures { result.now ≡ self.now.loose }
    {
        match &self.rest {
            None => &[],
            Some(rest) => rest.loose.as_slice(),
        }
    }

    /// The tags that the format leaves open.
    pub(crate) fn others(&self) -> &[Named]
        ensures { result.now ≡ self.now.others }
    {
        match &self.rest {
            None => &[],
            Some(rest) => rest.others.as_slice(),
        }
    }

    /// About how many bytes the entries and the other tags have.
    pub(crate) fn room(&self) -> usize {
        match &self.rest {
            None => 0,
            Some(rest) => rest.room,
        }
    }
}
