//! Test cases as lines of text, `KIND INPUT => ANSWER`, with a name before them where they have one.
//!
//! It serves the programs of cases, each of which says what an input of a kind is answered. `run_cases` asks for the
//! answer of each line that it reads, and prints those lines whose answer is another, with that answer, and last how
//! many cases there were.
#![tactic(auto)]

mod answer;
mod parts;
mod run;
mod text;

pub use answer::Answer;
pub use memory::Memory;
pub use parts::{Parts, parts_of};
pub use run::{Cases, is_case, run_cases, tell_case};
pub use text::{push_number, push_text, script_of};
