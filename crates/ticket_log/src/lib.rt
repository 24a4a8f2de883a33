//! The one serial order of a run as shared atomic words.
//!
//! A log has an atomic word for each player. One handle, the [`Drawer`], draws tickets: each draw adds one to its
//! player's word, and appends the player to the order. Any thread may hold a [`Pass`], a snapshot of the order,
//! which is always a prefix of it. The list exists in proofs alone; at run time a snapshot is its length.
//!
//! Two snapshots can always be synchronized ([`meet`], [`Drawer::meet`]): both are then the longer one, of
//! which both had been prefixes. That is how a fact about the order goes from one thread to another.
//!
//! No call waits for another thread, and none but [`BlankLog::new`] takes memory.
#![tactic(auto)]

mod blank;
mod drawer;
mod log;
mod name;
mod pass;
mod rule;
mod view;

pub use blank::BlankLog;
pub use drawer::{Drawer, Drawn};
pub use log::Log;
pub use name::RunName;
pub use pass::{Pass, meet};
