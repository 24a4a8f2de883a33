//! Lists of changes kept as runs, the captured cells of a chunk, and the map of the changes that are kept.
//!
//! Jobs that write chunks build them, undo and redo read them, and both go through them stretch by stretch.
//! Contracts see the plain lists and the plain map: how far a list is kept in few runs tells on time and room
//! alone.
#![tactic(auto)]

mod befores;
mod between;
mod builder;
mod cell_runs;
mod changes;
mod contents;
mod grow;
mod kept;
mod numbered_runs;
mod part;
mod part_builder;
mod proposed;
mod read;
mod run;
mod run_list;
mod search;
mod sorted_cells;

pub use befores::Befores;
pub use builder::ChangeBuilder;
pub use changes::Changes;
pub use kept::Kept;
pub use memory::Memory;
pub use numbered_runs::NumberedRuns;
pub use part::Part;
pub use part_builder::PartBuilder;
pub use proposed::Proposed;
pub use run::Run;
