//! The named tags of a file that the writer writes itself.

ghost use Rattle.std.specs.Prelude.{◌≡◌, ◌<◌, ◌^◌, ◌∷◌, [], length, pos, IfOk, codes, Option};
ghost use Rattle.nbt_tags.specs.declared.tag.Tag.TheVariants as tags;
ghost use Rattle.nbt_tags.specs.Reading.{named};
ghost use Rattle.sponge_schematic.specs.File.{size_tag, corner_tag, box_tags, block_tags, entry_tag, entry_tags, entity_tags};

use block_palette::Palette;
use block_state::write_state;
use edit_terms::{BlockState, Pos, WorldBox};
use memory::Memory;
use nbt_tags::{Items, Named, Tag, Values};
use std::alloc::Global;

fn named(alloc: Global, name: &[u8], tag: Tag) -> Result<Named, Memory>
    ensures { IfOk result (λ x. x ≡ named name.now tag) }
{
    let name = Values::from_vec(Vec::from_slice(alloc, name)?);
    Ok(Named { name, tag })
}

/// An Int.
fn int_tag(number: &i32) -> Tag
    ensures { result ≡ tags.Int number.now }
{
    Tag::Int(*number)
}

/// An Int that counts.
fn count_tag(count: u32) -> Tag
    requires { count < 2 ^ 31 }
    ensures { result ≡ tags.Int (pos count) }
{
    int_tag(&signed(count))
}

/// The same number with a sign.
fn signed(count: u32) -> i32
    requires { count < 2 ^ 31 }
    ensures { result ≡ pos count }
{
    count as i32
}

/// A Short of the low 16 bits of a size.
fn size_tag(size: u32) -> Tag
    requires { size < 2 ^ 16 }
    ensures { result ≡ size_tag size }
{
    Tag::Short((size as u16).cast_signed())
}

/// An IntArray of three.
fn corner_tag(alloc: Global, p: &Pos) -> Result<Tag, Memory>
    ensures { IfOk result (λ x. x ≡ corner_tag p.now) }
{
    let numbers = Vec::from_slice(alloc, &[p.x, p.y, p.z])?;
    Ok(Tag::IntArray(Values::from_vec(numbers)))
}

/// The tags of the versions and of the box.
pub(crate) fn box_tags(
    alloc: Global,
    data_version: &i32,
    area: &WorldBox,
) -> Result<Vec<Named>, Memory>
    ensures { IfOk result (λ x. x.items ≡ box_tags data_version.now area.now) }
{
    area.well_formed();
    let mut out = Vec::with_capacity(alloc, 6)?;
    out.push(named(alloc, b"Version", int_tag(&2))?)?;
    out.push(named(alloc, b"DataVersion", int_tag(data_version))?)?;
    out.push(named(alloc, b"Width", size_tag(area.width()))?)?;
    out.push(named(alloc, b"Height", size_tag(area.height()))?)?;
    out.push(named(alloc, b"Length", size_tag(area.length()))?)?;
    out.push(named(alloc, b"Offset", corner_tag(alloc, &area.least())?)?)?;
    Ok(out)
}

fn entry_tag(alloc: Global, number: u32, state: &BlockState) -> Result<Named, Memory>
    requires { number < 2 ^ 31 }
    ensures { IfOk result (λ x. x ≡ entry_tag number state.now) }
{
    let text = write_state(alloc, state)?;
    named(alloc, &text, count_tag(number))
}

/// A palette's entries, in the order of their numbers.
fn entry_tags(alloc: Global, palette: &Palette<BlockState>) -> Result<Items<Named>, Memory>
    requires { length palette.now < 2 ^ 31 }
    ensures { IfOk result (λ x. x ≡ entry_tags 0 palette.now) }
{
    let mut out = Vec::with_capacity(alloc, palette.len() as usize)?;
    for number in 0..palette.len() {
        let Some(state) = palette.entry(number) else {
            unreachable!()
        };
        out.push(entry_tag(alloc, number, state)?)?;
    }
    Ok(Items::from_vec(out))
}

/// The tags of the blocks: of the palette, and of these block data.
pub(crate) fn block_tags(
    alloc: Global,
    palette: &Palette<BlockState>,
    bytes: Vec<u8>,
) -> Result<Vec<Named>, Memory>
    requires { length palette.now < 2 ^ 31 }
    ensures { IfOk result (λ x. x.items ≡ block_tags palette.now bytes.items) }
{
    let entries = Tag::Compound(entry_tags(alloc, palette)?);
    let blocks = Tag::ByteArray(Values::from_vec(bytes));
    let mut out = Vec::with_capacity(alloc, 3)?;
    out.push(named(alloc, b"PaletteMax", count_tag(palette.len()))?)?;
    out.push(named(alloc, b"Palette", entries)?)?;
    out.push(named(alloc, b"BlockData", blocks)?)?;
    Ok(out)
}

/// The tag BlockEntities, where it is written.
pub(crate) fn entity_tags(alloc: Global, list: Option<Tag>) -> Result<Vec<Named>, Memory>
    ensures { IfOk result (λ x. x.items ≡ entity_tags list) }
{
    let mut out = Vec::new(alloc);
    if let Some(list) = list {
        out.push(named(alloc, b"BlockEntities", list)?)?;
    }
    Ok(out)
}
