//! A whole world whose blocks change, kept as a number for each block.
//!
//! The reference execution reads the world as plain blocks, lists what is to change, and writes that down;
//! the canvas tells which blocks changed and can take changes back.
#![tactic(auto)]

mod canvas;
mod cell_change;
mod comparing;
mod grids;
mod growth;
mod numbering;
mod proposals;
mod restoring;
mod writing;

pub use canvas::Canvas;
pub use cell_change::CellChange;
pub use growth::numbers_stay;
pub use memory::Memory;
pub use proposals::Proposals;
