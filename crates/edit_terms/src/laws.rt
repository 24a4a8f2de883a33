//! Laws of the terms: each function does nothing, and its clauses are the law.

mod boxes;
mod masks;
mod patterns;
mod regions;
mod states;
mod transforms;

pub use boxes::index_and_position;
pub use masks::{double_negation, noise_of_none_and_all};
pub use patterns::{
    boxes_of_a_clipboard, clipboard_cells_lie_in_its_bounds, some_entry_is_chosen,
    the_only_entry_is_chosen,
};
pub use regions::{box_in_common, region_in_frame, region_in_whole, root_is_greatest};
pub use states::{
    one_state_a_text, replacing_properties, sorting_properties, states_and_faults, written_form,
};
pub use transforms::{
    flip_after_a_transform, flip_along_z, four_quarter_turns, inverse_transform,
    turned_states_are_states, turns_after_a_transform, two_flips,
};
