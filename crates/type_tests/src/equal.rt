//! Equality and hashes go by what a value stands for, not by how it is held.

use crate::terms::{content, entity, state};
use edit_terms::{BlockState, Content, Name};
use std::alloc::Global;
use std::hash::{DefaultHasher, Hash, Hasher};

fn hash_of<T: Hash>(value: &T) -> u64 {
    let mut hasher = DefaultHasher::new();
    value.hash(&mut hasher);
    hasher.finish()
}

/// Both are equal and have one hash.
fn are_same<T: Eq + Hash>(one: &T, other: &T) -> bool {
    *one == *other && *other == *one && hash_of(one) == hash_of(other)
}

/// Both differ, and so do their hashes.
fn are_other<T: Eq + Hash>(one: &T, other: &T) -> bool {
    *one != *other && *other != *one && hash_of(one) != hash_of(other)
}

/// A state's copies, its shared form and copies of that are equal to it.
fn held_forms_are_same(alloc: Global, text: &[u8]) -> Option<bool> {
    let own = state(alloc, text)?;
    let copied = own.copy(alloc).ok()?;
    let shared = state(alloc, text)?.share(alloc).ok()?;
    let again = shared.copy(alloc).ok()?;
    Some(are_same(&own, &copied) && are_same(&own, &shared) && are_same(&own, &again))
}

#[test]
fn copied_states_are_equal(rt: HostRuntime) {
    for text in [
        b"oak_stairs[facing=east,half=top]".as_slice(),
        b"stone".as_slice(),
        b"my:air[a=0]".as_slice(),
    ] {
        assert_eq!(rt; held_forms_are_same(rt.alloc(), text), Some(true));
    }
}

fn shared_twice(alloc: Global, text: &[u8]) -> Option<BlockState> {
    state(alloc, text)?.share(alloc).ok()?.share(alloc).ok()
}

fn shared_twice_is_same(alloc: Global, text: &[u8]) -> Option<bool> {
    Some(are_same(&shared_twice(alloc, text)?, &state(alloc, text)?))
}

#[test]
fn shared_states_are_equal(rt: HostRuntime) {
    let text = b"oak_stairs[facing=east,half=top]";
    assert_eq!(rt; shared_twice_is_same(rt.alloc(), text), Some(true));
}

fn differ(alloc: Global, one: &[u8], other: &[u8]) -> Option<bool> {
    let own = state(alloc, one)?;
    let other = state(alloc, other)?;
    let shared = own.copy(alloc).ok()?;
    Some(are_other(&own, &other) && are_other(&shared, &other))
}

#[test]
fn states_are_equal_by_name_and_properties(rt: HostRuntime) {
    let stairs = b"oak_stairs[facing=east,half=top]";
    for other in [
        b"oak_stair[facing=east,half=top]".as_slice(),
        b"oak_stairs".as_slice(),
        b"oak_stairs[facing=east]".as_slice(),
        b"oak_stairs[facing=west,half=top]".as_slice(),
        b"oak_stairs[facing=east,hinge=top]".as_slice(),
        b"oak_stairs[facing=east,half=top,shape=straight]".as_slice(),
    ] {
        assert_eq!(rt; differ(rt.alloc(), stairs, other), Some(true));
    }
}

/// A chest whose entity has the tags `ab` and `c` around its position.
fn full_chest(alloc: Global) -> Option<Content> {
    content(alloc, b"chest", b"ab", b"c")
}

fn copied_content_is_same(alloc: Global) -> Option<bool> {
    let chest = full_chest(alloc)?;
    let copied = chest.copy(alloc).ok()?;
    let again = copied.copy(alloc).ok()?;
    Some(are_same(&chest, &copied) && are_same(&chest, &again))
}

fn equal_content_is_same(alloc: Global) -> Option<bool> {
    Some(are_same(&full_chest(alloc)?, &full_chest(alloc)?))
}

fn differs_from_chest(alloc: Global, text: &[u8], before: &[u8], after: &[u8]) -> Option<bool> {
    let other = content(alloc, text, before, after)?;
    let chest = full_chest(alloc)?;
    Some(chest != other && other != chest)
}

fn differs_without_entity(alloc: Global) -> Option<bool> {
    let other = Content {
        state: state(alloc, b"chest")?,
        entity: None,
    };
    let chest = full_chest(alloc)?;
    Some(chest != other && other != chest)
}

#[test]
fn contents_are_equal_by_state_and_entity(rt: HostRuntime) {
    assert_eq!(rt; equal_content_is_same(rt.alloc()), Some(true));
    assert_eq!(rt; copied_content_is_same(rt.alloc()), Some(true));
    assert_eq!(rt; differs_without_entity(rt.alloc()), Some(true));
    for (text, before, after) in [
        (b"chest".as_slice(), b"a".as_slice(), b"bc".as_slice()),
        (b"chest".as_slice(), b"ab".as_slice(), b"".as_slice()),
        (b"barrel".as_slice(), b"ab".as_slice(), b"c".as_slice()),
    ] {
        assert_eq!(rt;
            differs_from_chest(rt.alloc(), text, before, after),
            Some(true)
        );
    }
}

fn entities_are_same(alloc: Global, before: &[u8], after: &[u8]) -> Option<bool> {
    let one = entity(alloc, b"ab", b"c")?;
    let other = entity(alloc, before, after)?;
    Some(*one == *other && hash_of(&*one) == hash_of(&*other))
}

#[test]
fn entities_are_equal_by_their_tags(rt: HostRuntime) {
    assert_eq!(rt; entities_are_same(rt.alloc(), b"ab", b"c"), Some(true));
    assert_eq!(rt; entities_are_same(rt.alloc(), b"abc", b""), Some(false));
}

fn name(alloc: Global, bytes: &[u8]) -> Option<Name> {
    Some(Name::from_vec(Vec::from_slice(alloc, bytes).ok()?))
}

fn copied_name_is_same(alloc: Global) -> Option<bool> {
    let anna = name(alloc, b"anna")?;
    let copied = anna.copy(alloc).ok()?;
    Some(are_same(&anna, &copied) && copied.as_slice() == b"anna".as_slice())
}

fn differs_from_anna(alloc: Global, bytes: &[u8]) -> Option<bool> {
    Some(are_other(&name(alloc, b"anna")?, &name(alloc, bytes)?))
}

#[test]
fn lists_are_equal_item_by_item(rt: HostRuntime) {
    assert_eq!(rt; copied_name_is_same(rt.alloc()), Some(true));
    for other in [
        b"".as_slice(),
        b"ann".as_slice(),
        b"annas".as_slice(),
        b"Anna".as_slice(),
        b"nana".as_slice(),
    ] {
        assert_eq!(rt; differs_from_anna(rt.alloc(), other), Some(true));
    }
}
