//! Which chunks each command of a workload reads and writes, known before anything runs.
//!
//! It serves an engine that runs commands side by side: each command's accesses are those of the definitions,
//! and a workload with too many of them is refused before any list is built.
#![tactic(auto)]

mod chunk_set;
mod cutting;
mod footprint;
mod laws;
mod listing;
mod marks;
mod plan;
mod plan_fault;
mod planned;
mod players;
mod rectangle;
mod resolved_script;
mod single;
mod stacking;
mod writes;

pub use laws::plans_depend_on_the_script;
pub use memory::Memory;
pub use plan::Plan;
pub use plan_fault::PlanFault;
pub use planned::Planned;
