//! Taking a list of block entities apart.

ghost use Rattle.std.specs.Prelude.{◌≡◌, ℕ, ◌+◌, ◌<◌, ◌≤◌, ◌^◌, true, length, map, All, IfOk, OnOk, option_map, if◌then◌else◌, ◌∷◌, []};
ghost use Rattle.std.specs.Arc.{arc_value};
ghost use Rattle.std.specs.Ordering.{nat_cmp};
ghost use Rattle.std.specs.BTreeMap.{get, keys, values, btree_map_len, IsOrdered};
ghost use Rattle.edit_terms.specs.Area.{volume, position_of};
ghost use Rattle.edit_terms.specs.Grid.{is_rising_from, entity_of};
ghost use Rattle.block_entities.specs.Entry.{place_of, tags_of_entry};
ghost use Rattle.block_entities.specs.Gathering.{IsEntryList, is_entry_list, items_of, entity_at, loose_of, names_place, placed, positioned};
ghost use Rattle.block_entities.specs.FileEntities.{IsEntry, IsFileEntity};

use crate::entry::{entity_of_entry, place_of};
use crate::{COMPOUND, Memory};
use edit_terms::{Entities, Entity, WorldBox};
use nbt_tags::{Items, Tag};
use std::alloc::Global;
use std::collections::BTreeMap;
use std::sync::Arc;

/// What a list of block entities holds.
#[derive(Debug, Drop)]
pub struct Gathered {
    /// The entities by position, in index order.
    pub entities: Entities,
    /// The entries that name no block of the box, whole and in their order.
    pub loose: Items<Tag>,
}

/// Whether a tag is a list that is empty or of compounds, as a list of block entities is.
pub fn is_entry_list(tag: &Tag) -> bool
    ensures { result ≡ is_entry_list tag.now }
{
    match tag {
        Tag::List { element, items } => items.is_empty() || *element == COMPOUND,
        _ => false,
    }
}

/// The entities that a list gives to the blocks of a box, and its other entries.
///
/// An entry whose `Pos` is an IntArray of three which names a block, counted from the least corner of the box,
/// gives that block its entity. Where several name one block the last one does, and the others are dropped. The
/// list is taken by value, so that loose entries are moved and not copied.
pub fn gather(alloc: Global, list: Tag, area: &WorldBox) -> Result<Gathered, Memory>
    requires { IsEntryList list }
    // Each block has the entity of the last entry that names it, and nothing else has one.
    ensures entities { IfOk result (λ g. (index : ℕ) → index < volume area.now →
        entity_of (placed g.entities) (position_of area.now index)
        ≡ entity_at area.now (items_of list) index) }
    ensures rising { IfOk result (λ g.
        is_rising_from area.now 0 (placed g.entities) ≡ true) }
    ensures loose { IfOk result (λ g. g.loose ≡ loose_of area.now (items_of list)) }

    // What is gathered can be written again.
    ensures good { IfOk result (λ g.
        All IsFileEntity (map (λ e. e.1) (placed g.entities))) }
    ensures sound { IfOk result (λ g. All IsEntry g.loose) }
    ensures few { IfOk result (λ g.
        length g.entities + length g.loose ≤ length (items_of list)) }
    ensures counted { IfOk result (λ g. length g.entities + length g.loose < 2 ^ 31) }
{
    area.well_formed();
    let entries = items_of(alloc, list);
    let found = entities_of(alloc, entries.as_slice(), area)?;
    let entities = in_order(alloc, found, area)?;
    let loose = loose_of(alloc, entries, area)?;
    Ok(Gathered { entities, loose })
}

fn items_of(alloc: Global, tag: Tag) -> Items<Tag>
    ensures { result ≡ items_of tag }
{
    match tag {
        Tag::List { element: _, items } => items,
        _ => Items::new(alloc),
    }
}

/// The entity of each block, by its index, that some entry names.
fn entities_of(
    alloc: Global,
    entries: &[Tag],
    area: &WorldBox,
) -> Result<BTreeMap<u32, Arc<Entity>>, Memory>
    requires { All IsEntry entries.now }
    ensures each { IfOk result (λ found. (index : ℕ) →
        option_map arc_value (get nat_cmp found index) ≡ entity_at area.now entries.now index) }
    ensures below { IfOk result (λ found. All (λ index. index < volume area.now) (keys found)) }
    ensures good { IfOk result (λ found. All (λ e. IsFileEntity (arc_value e)) (values found)) }
    ensures ordered { IfOk result (IsOrdered nat_cmp) }
    ensures few { IfOk result (λ found.
        btree_map_len found + length (loose_of area.now entries.now) ≤ length entries.now) }
{
    let mut found = BTreeMap::new(alloc);
    for entry in entries {
        put_entity(alloc, &mut found, area, entry)?;
    }
    Ok(found)
}

/// Gives the block that an entry names, if it names one, its entity.
fn put_entity(
    alloc: Global,
    found: &mut BTreeMap<u32, Arc<Entity>>,
    area: &WorldBox,
    entry: &Tag,
) -> Result<(), Memory>
    requires { IsEntry entry.now }
    ensures each { OnOk result ((index : ℕ) → option_map arc_value (get nat_cmp found.new index)
        ≡ (if names_place area.now index entry.now then Some (tags_of_entry entry.now)
        else option_map arc_value (get nat_cmp found.old index))) }
    ensures below { OnOk result (All (λ index. index < volume area.now) (keys found.old)
        → All (λ index. index < volume area.now) (keys found.new)) }
    ensures good { OnOk result (All (λ e. IsFileEntity (arc_value e)) (values found.old)
        → All (λ e. IsFileEntity (arc_value e)) (values found.new)) }
    ensures ordered { OnOk result (IsOrdered nat_cmp found.old → IsOrdered nat_cmp found.new) }
    ensures few { OnOk result (btree_map_len found.new + length (loose_of area.now (entry.now ∷ []))
        ≤ btree_map_len found.old + 1) }
{
    let Some(index) = place_of(area, entry) else {
        return Ok(());
    };
    let entity = entity_of_entry(alloc, entry)?;
    found.insert(index, Arc::new(alloc, entity)?)?;
    Ok(())
}

/// The entities by position, in index order.
fn in_order(
    alloc: Global,
    found: BTreeMap<u32, Arc<Entity>>,
    area: &WorldBox,
) -> Result<Entities, Memory>
    requires below { All (λ index. index < volume area.now) (keys found) }
    requires ordered { IsOrdered nat_cmp found }
    ensures list { IfOk result (λ list. placed list ≡ positioned area.now found.entries) }
    ensures rising { IfOk result (λ list. is_rising_from area.now 0 (placed list) ≡ true) }
{
    area.well_formed();
    let mut list = Vec::new(alloc);
    for (index, entity) in found {
        if let Some(p) = area.position(index) {
            list.push((p, entity))?;
        }
    }
    Ok(Entities::from_vec(list))
}

/// The entries that name no block, taken from the last one on.
fn loose_of(alloc: Global, mut entries: Items<Tag>, area: &WorldBox) -> Result<Items<Tag>, Memory>
    ensures { IfOk result (λ loose. loose ≡ loose_of area.now entries) }
{
    let mut loose = Vec::new(alloc);
    while let Some(entry) = entries.pop() {
        if place_of(area, &entry).is_none() {
            loose.push(entry)?;
        }
    }
    loose.reverse();
    Ok(Items::from_vec(loose))
}
