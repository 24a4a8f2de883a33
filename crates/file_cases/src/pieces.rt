//! Words that stand for the tags of a schematic.
//!
//! `version` and `data-version` are the two versions, 2 and 2586. `WxHxL` are the three sizes. `at:X,Y,Z` is the Offset,
//! `max:N` the PaletteMax, `palette{` begins the Palette, and `data:HEX` is the BlockData. `stone:WxHxL@X,Y,Z` is all
//! before the BlockData in a file of stone, its Offset 0,0,0 where none is given. `dirt` is all of a file of one block
//! of dirt. `entities*N` begins the list BlockEntities with N entries, and `pos:X,Y,Z` is the Pos of one.

use crate::words::put_tag;
use std::alloc::Global;

/// Puts the bytes of a word that may name a piece of a schematic.
pub fn put_piece(alloc: Global, out: &mut Vec<u8>, word: &str) -> Option<()> {
    match word {
        "version" => put_tag(alloc, out, "int:Version=2"),
        "data-version" => put_tag(alloc, out, "int:DataVersion=2586"),
        "palette{" => put_tag(alloc, out, "compound:Palette{"),
        "dirt" => put_dirt(alloc, out),
        _ => put_valued(alloc, out, word),
    }
}

/// A piece that has a value, or any other tag.
fn put_valued(alloc: Global, out: &mut Vec<u8>, word: &str) -> Option<()> {
    if let Some(count) = word.strip_prefix("entities*") {
        return put_with(alloc, out, "list:BlockEntities=compound*", count);
    }
    match word.split_once(':') {
        Some(("at", value)) => put_with(alloc, out, "ints:Offset=", value),
        Some(("max", value)) => put_with(alloc, out, "int:PaletteMax=", value),
        Some(("data", value)) => put_with(alloc, out, "bytes:BlockData=", value),
        Some(("pos", value)) => put_with(alloc, out, "ints:Pos=", value),
        Some(("stone", value)) => put_stone(alloc, out, value),
        Some(_) => put_tag(alloc, out, word),
        None => put_sizes_or_tag(alloc, out, word),
    }
}

/// The tag of a word that has two parts.
fn put_with(alloc: Global, out: &mut Vec<u8>, first: &str, second: &str) -> Option<()> {
    let mut word = String::from_str(alloc, first).ok()?;
    word.push_str(second).ok()?;
    put_tag(alloc, out, word.as_str())
}

fn put_sizes_or_tag(alloc: Global, out: &mut Vec<u8>, word: &str) -> Option<()> {
    match sizes_of(word) {
        None => put_tag(alloc, out, word),
        Some(sizes) => put_sizes(alloc, out, sizes),
    }
}

fn sizes_of(word: &str) -> Option<(&str, &str, &str)> {
    if word.starts_with('x') {
        return None;
    }
    let (width, rest) = word.split_once('x')?;
    let (height, length) = rest.split_once('x')?;
    Some((width, height, length))
}

fn put_sizes(alloc: Global, out: &mut Vec<u8>, sizes: (&str, &str, &str)) -> Option<()> {
    put_with(alloc, out, "short:Width=", sizes.0)?;
    put_with(alloc, out, "short:Height=", sizes.1)?;
    put_with(alloc, out, "short:Length=", sizes.2)
}

/// All that stands before the Palette in a file of one palette entry.
fn put_head(alloc: Global, out: &mut Vec<u8>, sizes: &str, least: &str) -> Option<()> {
    put_tag(alloc, out, "int:Version=2")?;
    put_tag(alloc, out, "int:DataVersion=2586")?;
    put_sizes(alloc, out, sizes_of(sizes)?)?;
    put_with(alloc, out, "ints:Offset=", least)
}

/// A Palette of one entry, and its PaletteMax.
fn put_palette(alloc: Global, out: &mut Vec<u8>, entry: &str) -> Option<()> {
    put_tag(alloc, out, "int:PaletteMax=1")?;
    put_tag(alloc, out, "compound:Palette{")?;
    put_tag(alloc, out, entry)?;
    out.push(0).ok()
}

fn put_stone(alloc: Global, out: &mut Vec<u8>, value: &str) -> Option<()> {
    let (sizes, least) = match value.split_once('@') {
        Some(parts) => parts,
        None => (value, "0,0,0"),
    };
    put_head(alloc, out, sizes, least)?;
    put_palette(alloc, out, "int:minecraft:stone=0")
}

fn put_dirt(alloc: Global, out: &mut Vec<u8>) -> Option<()> {
    put_head(alloc, out, "1x1x1", "0,0,0")?;
    put_palette(alloc, out, "int:minecraft:dirt=0")?;
    put_tag(alloc, out, "bytes:BlockData=00")
}
