//! What threads may hand on and share.

use crate::terms::{mask, pattern, state};
use block_palette::Palette;
use edit_terms::{Case, Content, Grid, Outcome, Script, Spec};
use nbt_tags::Tag;
use std::alloc::Global;
use std::hash::Hash;

/// Takes such a value.
fn may_cross<T: Send + Sync>(_value: &T) -> bool {
    true
}

/// A palette of such entries is one.
fn palette_may_cross<S: Eq + Hash + Drop + Send + Sync>(palette: &Palette<S>) -> bool {
    may_cross(palette)
}

fn content_may_cross(content: &Content) -> bool {
    may_cross(content)
}

fn grid_may_cross(grid: &Grid) -> bool {
    may_cross(grid)
}

fn case_may_cross(case: &Case) -> bool {
    may_cross(case)
}

fn outcome_may_cross(outcome: &Outcome) -> bool {
    may_cross(outcome)
}

fn spec_may_cross(spec: &Spec) -> bool {
    may_cross(spec)
}

fn script_may_cross(script: &Script) -> bool {
    may_cross(script)
}

fn tag_may_cross(tag: &Tag) -> bool {
    may_cross(tag)
}

fn mask_crosses(alloc: Global) -> Option<bool> {
    let mask = mask(alloc, b"!>oak_stairs[half=top],stone")?;
    Some(may_cross(&mask))
}

fn pattern_crosses(alloc: Global) -> Option<bool> {
    let pattern = pattern(alloc, b"3%stone")?;
    Some(may_cross(&pattern))
}

fn state_crosses(alloc: Global) -> Option<bool> {
    let state = state(alloc, b"oak_stairs[half=top]")?.share(alloc).ok()?;
    Some(may_cross(&state))
}

#[test]
fn terms_may_cross_threads(rt: HostRuntime) {
    assert_eq!(rt; mask_crosses(rt.alloc()), Some(true));
    assert_eq!(rt; pattern_crosses(rt.alloc()), Some(true));
    assert_eq!(rt; state_crosses(rt.alloc()), Some(true));
    assert!(rt; palette_may_cross(&Palette::<u32>::new(rt.alloc())));
}
