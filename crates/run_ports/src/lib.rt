//! What the program knows of the outside: a store of named files, an output and a hook before each
//! job, as three traits, with forms in memory and the real ones. The program's entry points are
//! generic over them. Each trait says exactly what a call that succeeds did, what one that fails can
//! have left, and that a failure was counted.
#![tactic(auto)]

mod disk_shelf;
mod fail_plan;
mod file_list;
mod jobs;
mod memory_shelf;
mod memory_sink;
mod null_sink;
mod output;
mod steady_shelf;
mod store;
mod term_sink;

pub use disk_shelf::DiskShelf;
pub use fail_plan::Fail;
pub use jobs::{Gate, OpenGate};
pub use memory::Memory;
pub use memory_shelf::MemoryShelf;
pub use memory_sink::MemorySink;
pub use null_sink::NullSink;
pub use output::Sink;
pub use steady_shelf::SteadyShelf;
pub use store::{Failed, LoadError, Shelf};
pub use term_sink::TermSink;
