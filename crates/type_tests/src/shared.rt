//! Copies of masks and patterns say what their originals say, once they own and once they share.

use crate::terms::{mask, pattern, state};
use edit_terms::{BlockState, Leaf, Mask, Pattern, Sign, Term, Value};
use std::alloc::Global;

const MASK: &[u8] = b"!>oak_stairs[half=top] ^[half=top] %7 #existing #selection";

const STAIRS: &[u8] = b"oak_stairs[half=top]";

/// Whether a term is `!>oak_stairs[half=top]`.
fn is_below_stairs(term: &Term, stairs: &BlockState) -> bool {
    let states = match &term.leaf {
        Leaf::OneOf(states) => states.as_slice(),
        _ => return false,
    };
    let is_signed = term.signs.as_slice() == [Sign::Not, Sign::Below].as_slice();
    is_signed && states.len() == 1 && states[0] == *stairs
}

/// Whether a leaf is `^[half=top]`.
fn has_properties(leaf: &Leaf, stairs: &BlockState) -> bool {
    match leaf {
        Leaf::Has(properties) => properties.as_slice() == stairs.properties().as_slice(),
        _ => false,
    }
}

/// Whether a mask is the one above.
fn is_that_mask(mask: &Mask, stairs: &BlockState) -> bool {
    let [first, second, third, fourth, fifth] = mask.terms.as_slice() else {
        return false;
    };
    is_below_stairs(first, stairs)
        && has_properties(&second.leaf, stairs)
        && matches!(&third.leaf, Leaf::Noise(7))
        && matches!(&fourth.leaf, Leaf::Existing)
        && matches!(&fifth.leaf, Leaf::InSelection)
}

/// A copy of a copy of the mask, whose original is gone.
fn copied_mask(alloc: Global) -> Option<Mask> {
    mask(alloc, MASK)?.copy(alloc).ok()?.copy(alloc).ok()
}

fn shared_mask(alloc: Global) -> Option<Mask> {
    let terms = mask(alloc, MASK)?.terms;
    let terms = terms.share(alloc).ok()?.share(alloc).ok()?;
    Some(Mask { terms })
}

fn mask_stays(alloc: Global, made: Option<Mask>) -> Option<bool> {
    let stairs = state(alloc, STAIRS)?;
    Some(is_that_mask(&made?, &stairs))
}

#[test]
fn copied_masks(rt: HostRuntime) {
    assert_eq!(rt; mask_stays(rt.alloc(), mask(rt.alloc(), MASK)), Some(true));
    assert_eq!(rt; mask_stays(rt.alloc(), copied_mask(rt.alloc())), Some(true));
}

#[test]
fn shared_masks(rt: HostRuntime) {
    assert_eq!(rt; mask_stays(rt.alloc(), shared_mask(rt.alloc())), Some(true));
}

/// Whether a pattern is one entry of weight 3 with the stairs.
fn is_that_pattern(pattern: &Pattern, stairs: &BlockState) -> bool {
    let [entry] = pattern.entries.as_slice() else {
        return false;
    };
    entry.weight == 3 && matches!(&entry.value, Value::Fixed(state) if *state == *stairs)
}

fn own_pattern(alloc: Global) -> Option<Pattern> {
    pattern(alloc, b"3%oak_stairs[half=top]")
}

/// A copy of a copy of the pattern, whose original is gone.
fn copied_pattern(alloc: Global) -> Option<Pattern> {
    own_pattern(alloc)?.copy(alloc).ok()?.copy(alloc).ok()
}

fn pattern_stays(alloc: Global, made: Option<Pattern>) -> Option<bool> {
    let stairs = state(alloc, STAIRS)?;
    Some(is_that_pattern(&made?, &stairs))
}

#[test]
fn copied_patterns(rt: HostRuntime) {
    assert_eq!(rt;
        pattern_stays(rt.alloc(), own_pattern(rt.alloc())),
        Some(true)
    );
    assert_eq!(rt;
        pattern_stays(rt.alloc(), copied_pattern(rt.alloc())),
        Some(true)
    );
}
