//! Contents by letters: `.` air, `s` stone, `p` stone with a property, `d` dirt, `c` a chest, a digit a chest with an
//! entity that has this digit before `Pos`, and a capital letter one that has it behind `Pos`. `-` stands for none.

use case_lines::Answer;
use edit_terms::{BlockName, BlockState, Content, Entity, Name, Properties};
use std::alloc::Global;
use std::sync::Arc;

/// The contents of letters.
pub fn contents_of(alloc: Global, letters: &str) -> Option<Vec<Option<Content>>> {
    let mut contents = Vec::new(alloc);
    for letter in letters.as_bytes() {
        contents.push(content_or_none(alloc, *letter)?).ok()?;
    }
    Some(contents)
}

fn content_or_none(alloc: Global, letter: u8) -> Option<Option<Content>> {
    if letter == b'-' {
        return Some(None);
    }
    Some(Some(content_of(alloc, letter)?))
}

/// The content of a letter.
pub fn content_of(alloc: Global, letter: u8) -> Option<Content> {
    let state = state_of(alloc, letter)?;
    let entity = entity_of(alloc, letter)?;
    Some(Content { state, entity })
}

/// The content at a place, where the contents are repeated.
pub fn at_place(contents: &[Option<Content>], index: u32) -> Option<&Content> {
    if contents.is_empty() {
        return None;
    }
    contents[index as usize % contents.len()].as_ref()
}

/// The state of a letter.
pub fn state_of(alloc: Global, letter: u8) -> Option<BlockState> {
    let name = match letter {
        b'.' => "minecraft:air",
        b's' | b'p' => "minecraft:stone",
        b'd' => "minecraft:dirt",
        b'c' | b'0'..=b'9' | b'A'..=b'Z' => "minecraft:chest",
        _ => return None,
    };
    let name = name_of(alloc, name)?;
    let properties = properties_of(alloc, letter == b'p')?;
    Some(BlockState::new(BlockName::from_name(name)?, properties))
}

fn name_of(alloc: Global, text: &str) -> Option<Name> {
    Some(Name::from_vec(Vec::from_slice(alloc, text.as_bytes()).ok()?))
}

fn properties_of(alloc: Global, has_one: bool) -> Option<Properties> {
    let mut pairs = Vec::new(alloc);
    if has_one {
        pairs
            .push((name_of(alloc, "a")?, name_of(alloc, "b")?))
            .ok()?;
    }
    Properties::from_pairs(pairs)
}

/// The entity of a letter, if it has one.
pub fn entity_of(alloc: Global, letter: u8) -> Option<Option<Arc<Entity>>> {
    let tags = Vec::from_slice(alloc, &[letter]).ok()?;
    let none = Vec::new(alloc);
    let entity = match letter {
        b'0'..=b'9' => Entity::new(tags, none),
        b'A'..=b'Z' => Entity::new(none, tags),
        _ => return Some(None),
    };
    Some(Some(Arc::new(alloc, entity).ok()?))
}

/// Puts the letter of a content behind an answer.
pub fn tell_content(answer: &mut Answer, content: &Content) {
    tell_letter(answer, &content.state, content.entity.as_ref())
}

/// Puts the letter of a state and an entity behind an answer.
pub fn tell_letter(answer: &mut Answer, state: &BlockState, entity: Option<&Arc<Entity>>) {
    match entity {
        None => answer.text(letter_of(state)),
        Some(entity) => tell_entity(answer, entity),
    }
}

/// Puts the tags of an entity behind an answer.
pub fn tell_entity(answer: &mut Answer, entity: &Entity) {
    answer.bytes(entity.before());
    answer.bytes(entity.after())
}

fn letter_of(state: &BlockState) -> &'static str {
    let has_property = !state.properties().as_slice().is_empty();
    match state.name() {
        b"minecraft:air" => ".",
        b"minecraft:dirt" => "d",
        b"minecraft:chest" => "c",
        b"minecraft:stone" if has_property => "p",
        b"minecraft:stone" => "s",
        _ => "?",
    }
}
