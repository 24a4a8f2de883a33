//! The program's top calls.
//!
//! `run` reads a world's file and the players' scripts, runs them, saves the world and prints each
//! command's reply. Its contract is the end-to-end theorem: what it saves and prints is what a plain fold
//! of the commands in one order gives, and each other ending comes with its cause. `check` tells what a
//! world's file holds. `drill` runs a workload that is made from a number and tells what it left.
#![tactic(auto)]

mod answering;
mod check_text;
mod checking;
mod drill_text;
mod drilling;
mod loading;
mod message;
mod outputs;
mod planning;
mod rounds;
mod run_text;
mod running;
mod script_fault;
mod state_fault;
mod status;
mod text_laws;
mod top_call;
mod words;
mod world_fault;
mod world_laws;

pub use checking::check;
pub use drilling::drill;
pub use memory::Memory;
pub use status::Status;
pub use text_laws::{drill_text_is_unique, printed_order_is_unique};
pub use top_call::run;
pub use world_laws::last_worlds_are_writable;
