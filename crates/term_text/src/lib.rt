//! What the texts of masks, of patterns and of scripts have in common: pieces between separators outside
//! brackets, block states, names and properties as parts, and natural numbers in digits.
//!
//! It serves the readers of all of them. Contracts see the pieces as the list that the definition cuts a text
//! into, each with its place.
#![tactic(auto)]

mod digits;
mod part;
mod pieces;

pub use digits::{natural_between, natural_of};
pub use part::{error_at, name_at, properties_at, state_at};
pub use pieces::{Piece, Pieces, first_outside};
