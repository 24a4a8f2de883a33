//! What whole runs mean: sessions, serial orders, effects, the serial fold, replies and outcomes.
//!
//! The definitions stand in `specs/`; the code here carries laws over them, each the contract of a
//! function that does nothing, and decides whether a workload keeps the limits. The reference execution and
//! the engine are held to these definitions.
#![tactic(auto)]

mod command_limits;
mod fold_laws;
mod limits;
mod order_laws;
mod session_laws;
mod undo_laws;

pub use fold_laws::{
    entities_come_from_the_opening_world, first_tickets_keep_their_results,
    worlds_follow_from_earlier_worlds,
};
pub use limits::keeps_limits;
pub use order_laws::{tickets_are_named, whole_orders_are_legal};
pub use session_laws::{
    histories_keep_to_their_depth, refused_commands_change_nothing, sessions_keep_limits,
    stacked_copies_lie_apart, steps_keep_limits,
};
pub use undo_laws::{redo_restores, undo_inverts, undo_restores};
