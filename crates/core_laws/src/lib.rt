//! The event machine: what a concurrent run does chunk by chunk, and that it reaches only states of the serial execution.
#![tactic(auto)]

mod exchange;
mod next_job;
mod progress;
mod serial;
mod settled;

pub use exchange::events_exchange;
pub use next_job::next_jobs_are_events;
pub use progress::some_job_is_enabled;
pub use serial::reached_chunks_are_serial;
pub use settled::{
    finished_chunks_are_the_final_world, reached_chunks_hold_truth, serial_states_stay,
};
