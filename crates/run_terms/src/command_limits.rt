//! Whether commands, their masks and their patterns keep the limits.

ghost use Rattle.std.specs.Prelude.{◌≡◌, ◌≤◌, sum_by};
ghost use Rattle.std.specs.List.{list_all};
ghost use Rattle.edit_terms.specs.declared.mask.Term.{Term};
ghost use Rattle.edit_terms.specs.declared.pattern.Entry.{Entry};
ghost use Rattle.edit_terms.specs.Mask.{noise_leaves};
ghost use Rattle.run_terms.specs.Limits.{is_one_of, is_count, is_leaf_within, is_mask_within, is_optional_mask_within, is_pattern_within, is_command_within};

use edit_terms::{Command, Entry, Leaf, Mask, Pattern, Term};

pub(crate) fn is_command_within(command: &Command) -> bool
    ensures { result ≡ is_command_within command.now }
{
    match command {
        Command::Pos1 { at } => at.is_on_map(),
        Command::Pos2 { at } => at.is_on_map(),
        Command::Place { at } => at.is_on_map(),
        Command::Block { at, .. } => at.is_on_map(),
        Command::Set { pattern } => is_pattern_within(pattern),
        Command::Walls { pattern } => is_pattern_within(pattern),
        Command::Faces { pattern } => is_pattern_within(pattern),
        Command::Replace { mask, pattern } => is_mask_within(mask) && is_pattern_within(pattern),
        Command::Sphere {
            pattern,
            radius,
            ..
        } => is_pattern_within(pattern) && *radius <= 1_000,
        Command::Cyl {
            pattern,
            radius,
            height,
            ..
        } => is_pattern_within(pattern)
            && *radius <= 1_000
            && is_one_of(1, 4_096, *height as usize),
        Command::Stack { count, .. } => is_count(*count),
        Command::Move { count, .. } => is_count(*count),
        Command::Rotate { quarters } => is_one_of(1, 3, *quarters as usize),
        Command::Gmask { mask } => is_optional_mask_within(mask),
        Command::Undo { count } => is_count(*count),
        Command::Redo { count } => is_count(*count),
        Command::Sel { .. } => true,
        Command::Copy => true,
        Command::Cut => true,
        Command::Paste { .. } => true,
        Command::Flip { .. } => true,
    }
}

fn is_count(count: u32) -> bool
    ensures { result ≡ is_count count }
{
    is_one_of(1, 1_000, count as usize)
}

fn is_optional_mask_within(mask: &Option<Mask>) -> bool
    ensures { result ≡ is_optional_mask_within mask.now }
{
    match mask {
        None => true,
        Some(mask) => is_mask_within(mask),
    }
}

fn is_mask_within(mask: &Mask) -> bool
    ensures { result ≡ is_mask_within mask.now }
{
    let terms = mask.terms.as_slice();
    noise_leaves(terms) <= 4 && are_leaves_within(terms)
}

/// How many noise leaves the terms have.
fn noise_leaves(terms: &[Term]) -> usize
    ensures { result ≡ sum_by (λ (t : Term). noise_leaves t.leaf) terms.now }
{
    let mut count = 0;
    for term in terms {
        count += noise_of(&term.leaf);
    }
    count
}

/// 1 for a noise leaf, and 0 for another.
fn noise_of(leaf: &Leaf) -> usize
    ensures value { result ≡ noise_leaves leaf.now }
    ensures small { result ≤ 1 }
{
    match leaf {
        Leaf::Noise(_) => 1,
        _ => 0,
    }
}

fn are_leaves_within(terms: &[Term]) -> bool
    ensures { result ≡ list_all (λ (t : Term). is_leaf_within t.leaf) terms.now }
{
    terms.iter().all(|term| is_leaf_within(&term.leaf))
}

fn is_leaf_within(leaf: &Leaf) -> bool
    ensures { result ≡ is_leaf_within leaf.now }
{
    match leaf {
        Leaf::Noise(chance) => *chance <= 100,
        _ => true,
    }
}

fn is_pattern_within(pattern: &Pattern) -> bool
    ensures { result ≡ is_pattern_within pattern.now }
{
    let entries = pattern.entries.as_slice();
    is_one_of(1, 32, entries.len()) && are_weights_within(entries)
}

fn are_weights_within(entries: &[Entry]) -> bool
    ensures { result ≡ list_all (λ (e : Entry). is_one_of 1 1000000 e.weight) entries.now }
{
    entries
        .iter()
        .all(|entry| is_one_of(1, 1_000_000, entry.weight as usize))
}

/// Whether the number is one from low to high.
pub(crate) fn is_one_of(low: usize, high: usize, number: usize) -> bool
    ensures { result ≡ is_one_of low high number }
{
    low <= number && number <= high
}
