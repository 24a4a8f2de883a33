//! What commands do to the world, evaluated plainly, block by block.
//!
//! The reference execution asks here what a job proposes for the world before it: the contents that differ
//! afterwards, in index order. Each work has a file that says its definition in the shortest way, so that the
//! engine can be tested against it.
#![tactic(auto)]

mod air;
mod changes;
mod copied;
mod cut;
mod effect;
mod fill;
mod fits;
mod job;
mod masks;
mod paste;
mod proposing;
mod put;
mod relative;
mod section;
mod shift;
mod size;
mod source;
mod spot;
mod stack;
mod strip;
mod visit;

pub use job::Job;
pub use memory::Memory;
pub use proposing::proposed;
