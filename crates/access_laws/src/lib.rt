//! What chunk accesses mean for runs: effects are local to the chunks that a command accesses, and where players' commands
//! keep apart the serial order is free.
#![tactic(auto)]

mod locality;
mod needs;
mod order_free;

pub use locality::{agreement_is_by_parts, effects_are_local};
pub use needs::{
    clips_are_of_earlier_commands, effect_in_chunk, effects_depend_on_needs, other_parts_stay,
};
pub use order_free::{order_is_free, outcomes_differ_in_order_alone, still_scripts_draw_nothing};
