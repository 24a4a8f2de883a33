//! Masks from their texts.
//!
//! It serves the reader of scripts. A text is read as exactly the mask that the definitions in `specs/`
//! give, which cut it into pieces and judge each piece alone, or refused with the first fault from the
//! left and its place.
#![tactic(auto)]

mod leaf;
mod mask;
mod signs;
mod term;
mod union;

pub use block_state::TermFault;
pub use mask::read_mask;
pub use memory::Memory;
