//! The terms that builders' scripts, worlds and results are made of, and what they mean at one position.
//!
//! Every crate of the engine speaks of worlds by these types. Their contracts say exactly what each call
//! answers; the definitions stand in `specs/`, a file a subject, and know nothing of files, chunks or
//! threads.
#![tactic(auto)]

mod axis;
mod block_name;
mod block_state;
mod cell_list;
mod chunk;
mod clip;
mod content;
mod direction;
mod entity;
mod event;
mod grid;
mod items;
pub mod laws;
mod mask;
mod outcome;
mod pattern;
mod pos;
mod properties;
mod random;
mod region;
mod script;
mod step;
mod stretch;
mod transform;
mod try_copy;
mod world_box;

pub use block_name::BlockName;
pub use block_state::BlockState;
pub use cell_list::CellList;
pub use chunk::chunk_box;
pub use clip::{Clip, Source};
pub use content::Content;
pub use direction::Direction;
pub use entity::{Entities, Entity};
pub use event::Event;
pub use grid::Grid;
pub use items::{Items, Name};
pub use mask::{Leaf, Mask, Sign, Term};
pub use memory::Memory;
pub use outcome::{Outcome, Reply};
pub use pattern::{Entry, Pattern, Value};
pub use pos::Pos;
pub use properties::{Properties, is_property_word};
pub use random::random_word;
pub use region::{Kind, Region, Selection};
pub use script::{Case, Command, Line, Script};
pub use step::{Refusal, Spec, Step, Work};
pub use stretch::Stretch;
pub use transform::Transform;
pub use try_copy::TryCopy;
pub use world_box::WorldBox;
