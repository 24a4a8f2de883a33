//! Regions as rows: which positions belong to a region, its bounding box, its spans along x in a box, and the
//! chunks that a box touches. The crate serves fills and everything else that walks a region, by rows and not by
//! blocks. Each call gives exactly what the definitions of one position in `edit_terms` say.
#![tactic(auto)]

mod bounding;
mod chunk_columns;
mod chunk_index;
mod extent;
mod frame;
mod gaps;
mod hollow;
mod interval;
mod membership;
mod root;
mod row;
mod row_spans;
mod span;
mod span_iter;
mod whole;

pub use bounding::bounds;
pub use chunk_index::chunks_of;
pub use extent::{Extent, common_extent, extent_of, is_in_extent, is_without};
pub use frame::{frame_of, frame_of_selection};
pub use interval::{Interval, common, is_among, is_empty, numbers_from, shifted};
pub use membership::contains;
pub use span::Span;
pub use span_iter::{SpanIter, rows};
