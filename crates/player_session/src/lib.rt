//! One player's session: the positions, mask, clipboard and history that the player's own commands set.
//!
//! It serves the planner, which gives it a script's commands one by one and learns what each of them is: a
//! job with all that it reads fixed, a change of the session alone, or a refusal. It promises the step and
//! the session that the definitions give, and that want of memory leaves the session as it was.
#![tactic(auto)]

mod commands;
mod history;
mod masks;
mod session;

pub use memory::Memory;
pub use session::Session;
