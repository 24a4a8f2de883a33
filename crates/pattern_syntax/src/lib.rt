//! Patterns from their texts.
//!
//! It serves the reader of scripts. A text is read as exactly the pattern that the definitions in
//! `specs/` give, which cut it into entries and judge each one alone, or refused with the first fault from
//! the left and its place.
#![tactic(auto)]

mod entry;
mod pattern;
mod value;

pub use block_state::TermFault;
pub use memory::Memory;
pub use pattern::read_pattern;
