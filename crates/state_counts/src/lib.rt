//! How many blocks of each state a world has.
//!
//! It serves the calls that tell what a world is made of. Blocks are counted by the number of their state, and the states'
//! texts are written once each. A law says that a world has one census.
#![tactic(auto)]

mod counting;
mod laws;
mod tally;

pub use counting::count_states;
pub use laws::census_is_unique;
pub use memory::Memory;
