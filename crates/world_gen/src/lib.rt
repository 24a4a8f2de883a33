//! The drill: the workload that the program tests itself on, made from a number.
//!
//! Eight players edit one meadow, each in its own columns of x, by selections, fills, stacks and undos
//! that the number's random words choose. The definition stands in `specs/`; what is made is exactly that.
//! The players keep apart, so that the serial order of their commands is free: two laws say so.
#![tactic(auto)]

mod commands;
mod ground;
mod laws;
mod scripts;
mod states;
mod workload;

pub use laws::{drill_order_is_free, drill_players_keep_apart};
pub use memory::Memory;
pub use workload::drill_case;
