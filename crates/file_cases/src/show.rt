//! Tags as the words that spell them.

use case_lines::Answer;
use nbt_tags::{Named, Tag};
use std::alloc::Global;

/// A named tag.
#[cycle(show)]
pub fn show_named(alloc: Global, out: &mut Answer, named: &Named) {
    out.text(word_of(&named.tag));
    out.text(":");
    show_text(alloc, out, named.name.as_slice());
    if is_compound(&named.tag) {
        out.text("{");
    }
    show_value(alloc, out, &named.tag)
}

/// A tag without a name.
#[cycle(show)]
fn show_item(alloc: Global, out: &mut Answer, tag: &Tag) {
    if is_compound(tag) {
        out.text("{");
    } else {
        out.text(word_of(tag));
    }
    show_value(alloc, out, tag)
}

/// What stands behind a tag's type and name.
#[cycle(show)]
fn show_value(alloc: Global, out: &mut Answer, tag: &Tag) {
    match tag {
        Tag::List { element, items } => {
            show_list(out, *element, items.as_slice().len());
            show_items(alloc, out, items.as_slice())
        }
        Tag::Compound(row) => {
            {
                show_inner(alloc, out, row.as_slice());
                out.text(" }");
            }
        }
        _ => show_plain(alloc, out, tag),
    }
}

#[cycle(show)]
fn show_items(alloc: Global, out: &mut Answer, items: &[Tag]) {
    for item in items {
        out.text(" ");
        show_item(alloc, out, item);
    }
}

#[cycle(show)]
fn show_inner(alloc: Global, out: &mut Answer, row: &[Named]) {
    for named in row {
        out.text(" ");
        show_named(alloc, out, named);
    }
}

/// Named tags, with blanks between them.
pub fn show_row(alloc: Global, out: &mut Answer, row: &[Named]) {
    let Some((first, others)) = row.split_first() else {
        return;
    };
    show_named(alloc, out, first);
    show_inner(alloc, out, others)
}

fn is_compound(tag: &Tag) -> bool {
    matches!(tag, Tag::Compound(_))
}

fn word_of(tag: &Tag) -> &'static str {
    match tag {
        Tag::Byte(_) => "byte",
        Tag::Short(_) => "short",
        Tag::Int(_) => "int",
        Tag::Long(_) => "long",
        Tag::Float(_) => "float",
        Tag::Double(_) => "double",
        Tag::ByteArray(_) => "bytes",
        Tag::Str(_) => "string",
        Tag::List { .. } => "list",
        Tag::Compound(_) => "compound",
        Tag::IntArray(_) => "ints",
        Tag::LongArray(_) => "longs",
    }
}

/// `=TYPE*COUNT` of a list.
fn show_list(out: &mut Answer, element: u8, count: usize) {
    out.text("=");
    match element_word(element) {
        Some(word) => out.text(word),
        None => out.number(element),
    }
    out.text("*");
    out.number(count)
}

fn element_word(byte: u8) -> Option<&'static str> {
    match byte {
        1 => Some("byte"),
        2 => Some("short"),
        3 => Some("int"),
        4 => Some("long"),
        5 => Some("float"),
        6 => Some("double"),
        7 => Some("bytes"),
        8 => Some("string"),
        9 => Some("list"),
        10 => Some("compound"),
        11 => Some("ints"),
        12 => Some("longs"),
        _ => None,
    }
}

/// The value of a tag that holds no tags.
fn show_plain(alloc: Global, out: &mut Answer, tag: &Tag) {
    out.text("=");
    match tag {
        Tag::Byte(number) => out.number(*number),
        Tag::Short(number) => out.number(*number),
        Tag::Int(number) => out.number(*number),
        Tag::Long(number) => out.number(*number),
        Tag::Float(bits) => show_hex(alloc, out, &bits.to_be_bytes()),
        Tag::Double(bits) => show_hex(alloc, out, &bits.to_be_bytes()),
        _ => show_array(alloc, out, tag),
    }
}

fn show_array(alloc: Global, out: &mut Answer, tag: &Tag) {
    match tag {
        Tag::ByteArray(bytes) => show_hex(alloc, out, bytes.as_slice()),
        Tag::Str(text) => show_text(alloc, out, text.as_slice()),
        Tag::IntArray(numbers) => show_ints(out, numbers.as_slice()),
        Tag::LongArray(numbers) => show_longs(out, numbers.as_slice()),
        _ => out.fail(),
    }
}

/// Bytes in hexadecimal.
pub fn show_hex(alloc: Global, out: &mut Answer, bytes: &[u8]) {
    let Some(digits) = hex::encode(alloc, bytes).ok() else {
        out.fail();
        return;
    };
    out.text(digits.as_str())
}

/// A text, or `x` and its bytes in hexadecimal where one of them is no graphic character of ASCII.
fn show_text(alloc: Global, out: &mut Answer, text: &[u8]) {
    if text.iter().all(|byte| *byte > b' ' && *byte < 127) {
        out.bytes(text);
        return;
    }
    out.text("x");
    show_hex(alloc, out, text)
}

fn show_ints(out: &mut Answer, numbers: &[i32]) {
    for (place, number) in numbers.iter().enumerate() {
        show_comma(out, place);
        out.number(*number);
    }
}

fn show_longs(out: &mut Answer, numbers: &[i64]) {
    for (place, number) in numbers.iter().enumerate() {
        show_comma(out, place);
        out.number(*number);
    }
}

/// A comma behind the numbers before this place, if there are any.
fn show_comma(out: &mut Answer, place: usize) {
    if place == 0 {
        return;
    }
    out.text(",")
}
