//! Block states as texts, turned, flipped and edited.
//!
//! It serves the readers and writers of files, masks and patterns, and the jobs that paste and replace
//! blocks. A text is read as the one state that it stands for, or refused with its first fault, and each
//! new state is exactly the one that the definitions of `edit_terms` give. What cuts a text serves the
//! readers of scripts as well.
#![tactic(auto)]

mod applying;
mod cuts;
mod decimals;
mod fault;
mod listing;
mod motion;
mod pairs;
mod reading;
mod restating;
mod sorting;
mod term_fault;
mod turned_words;
mod turning;
mod writing;

pub use applying::apply;
pub use cuts::{split_once, two_parts};
pub use fault::StateFault;
pub use memory::Memory;
pub use reading::{read_name, read_properties, read_state};
pub use term_fault::TermFault;
pub use turning::transform;
pub use writing::write_state;
