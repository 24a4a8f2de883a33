//! The reference execution: a workload's commands in one order, by the plain serial fold of the definitions.
//!
//! It runs the scripts until an engine does, and every faster body is tested against it.
#![tactic(auto)]

mod acting;
mod carrying;
mod fold;
mod plain_error;
mod player;
mod recorded;
mod running;

pub use memory::Memory;
pub use plain_error::PlainError;
pub use running::plain_run;
