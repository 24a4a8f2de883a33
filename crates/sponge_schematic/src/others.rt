//! What the reader keeps of the root's named tags once the blocks are read.

ghost use Rattle.std.specs.Prelude.{◌≡◌, ◌∷◌, ◌++◌, [], IfOk, OnOk, codes, Some, bytes_eq, if◌then◌else◌};
ghost use Rattle.nbt_tags.specs.Spelling.{name_of, tag_of};
ghost use Rattle.sponge_schematic.specs.Fields.{tag_named, field_name, has_name};
ghost use Rattle.sponge_schematic.specs.Schematic.{is_version_name, is_box_name, is_block_name, is_own_name, others_of};
ghost use Rattle.sponge_schematic.specs.declared.fault.Field.TheVariants as fields;

use memory::Memory;
use nbt_tags::{Items, Named, Tag};
use std::alloc::Global;

/// The list BlockEntities, where it is there, and the tags that the format leaves open.
#[derive(Debug, Drop)]
pub(crate) struct Kept {
    pub(crate) list: Option<Tag>,
    pub(crate) others: Vec<Named>,
}

fn is_box_name(name: &[u8]) -> bool
    ensures { result ≡ is_box_name name.now }
{
    name == b"Width".as_slice()
        || name == b"Height".as_slice()
        || name == b"Length".as_slice()
        || name == b"Offset".as_slice()
}

fn is_block_name(name: &[u8]) -> bool
    ensures { result ≡ is_block_name name.now }
{
    name == b"PaletteMax".as_slice()
        || name == b"Palette".as_slice()
        || name == b"BlockData".as_slice()
        || name == b"BlockEntities".as_slice()
}

fn is_version_name(name: &[u8]) -> bool
    ensures { result ≡ is_version_name name.now }
{
    name == b"Version".as_slice() || name == b"DataVersion".as_slice()
}

/// True exactly for the name of a tag that the writer writes itself.
fn is_own_name(name: &[u8]) -> bool
    ensures { result ≡ is_own_name name.now }
{
    is_version_name(name) || is_box_name(name) || is_block_name(name)
}

fn is_list_name(name: &[u8]) -> bool
    ensures { result ≡ bytes_eq name.now (codes "BlockEntities") }
{
    name == b"BlockEntities".as_slice()
}

impl Kept {
    /// Keeps a named tag that stands before those that were kept.
    fn keep(&mut self, entry: Named) -> Result<(), Memory>
        ensures list { OnOk result (self.new.list ≡
            (if has_name (codes "BlockEntities") entry then Some (tag_of entry) else self.old.list)) }
        ensures others { OnOk result (self.new.others.items ≡
            (if is_own_name (name_of entry) then self.old.others.items else self.old.others.items ++ entry ∷ [])) }
    {
        if !is_own_name(entry.name.as_slice()) {
            self.others.push(entry)?;
            return Ok(());
        }
        if is_list_name(entry.name.as_slice()) {
            self.list = Some(entry.tag);
        }
        Ok(())
    }
}

/// What is kept of a row.
pub(crate) fn keep_rest(alloc: Global, row: Items<Named>) -> Result<Kept, Memory>
    ensures list { IfOk result (λ x. x.list ≡ tag_named (field_name fields.BlockEntities) row) }
    ensures others { IfOk result (λ x. x.others.items ≡ others_of row) }
{
    let mut row = row;
    let mut kept = Kept {
        list: None,
        others: Vec::new(alloc),
    };
    while let Some(entry) = row.pop() {
        kept.keep(entry)?;
    }
    kept.others.reverse();
    Ok(kept)
}
