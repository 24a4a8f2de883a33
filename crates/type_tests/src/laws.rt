//! Laws and calls that tell a form have nothing to answer; they return.

use crate::terms::state;
use edit_terms::{BlockName, Name};
use std::alloc::Global;

#[test]
fn laws_of_terms_return(_rt: HostRuntime) {
    edit_terms::laws::index_and_position();
    edit_terms::laws::written_form();
    edit_terms::laws::one_state_a_text();
    edit_terms::laws::states_and_faults();
    edit_terms::laws::sorting_properties();
    edit_terms::laws::replacing_properties();
    edit_terms::laws::double_negation();
    edit_terms::laws::noise_of_none_and_all();
    edit_terms::laws::some_entry_is_chosen();
    edit_terms::laws::the_only_entry_is_chosen();
}

#[test]
fn laws_of_places_return(_rt: HostRuntime) {
    edit_terms::laws::four_quarter_turns();
    edit_terms::laws::two_flips();
    edit_terms::laws::flip_along_z();
    edit_terms::laws::inverse_transform();
    edit_terms::laws::turns_after_a_transform();
    edit_terms::laws::flip_after_a_transform();
    edit_terms::laws::turned_states_are_states();
    edit_terms::laws::region_in_whole();
    edit_terms::laws::region_in_frame();
    edit_terms::laws::root_is_greatest();
    edit_terms::laws::box_in_common();
    edit_terms::laws::clipboard_cells_lie_in_its_bounds();
    edit_terms::laws::boxes_of_a_clipboard();
}

#[test]
fn laws_of_runs_return(_rt: HostRuntime) {
    run_terms::worlds_follow_from_earlier_worlds();
    run_terms::entities_come_from_the_opening_world();
    run_terms::whole_orders_are_legal();
    run_terms::tickets_are_named();
    run_terms::refused_commands_change_nothing();
    run_terms::histories_keep_to_their_depth();
    run_terms::stacked_copies_lie_apart();
    run_terms::undo_restores();
    run_terms::redo_restores();
    run_terms::undo_inverts();
    run_terms::first_tickets_keep_their_results();
    access_laws::agreement_is_by_parts();
    access_laws::effects_are_local();
    access_laws::effects_depend_on_needs();
    access_laws::effect_in_chunk();
    access_laws::other_parts_stay();
    access_laws::clips_are_of_earlier_commands();
    access_laws::still_scripts_draw_nothing();
    access_laws::order_is_free();
    access_laws::outcomes_differ_in_order_alone();
    core_laws::reached_chunks_are_serial();
    core_laws::reached_chunks_hold_truth();
    core_laws::finished_chunks_are_the_final_world();
    core_laws::serial_states_stay();
    core_laws::some_job_is_enabled();
    core_laws::events_exchange();
    core_laws::next_jobs_are_events();
}

#[test]
fn laws_of_files_and_calls_return(_rt: HostRuntime) {
    block_palette::numbering_law(&[7, 7, 3, 7, 9, 3]);
    nbt_tags::round_trip();
    block_entities::entities_of_grids();
    block_entities::lists_round_trip();
    sponge_schematic::files_round_trip();
    command_plan::plans_depend_on_the_script();
    state_counts::census_is_unique();
    world_gen::drill_players_keep_apart();
    world_gen::drill_order_is_free();
    edit_top::printed_order_is_unique();
    edit_top::last_worlds_are_writable();
    edit_top::drill_text_is_unique();
}

/// The forms of a state and of its parts are told.
fn forms_return(alloc: Global) -> Option<()> {
    let state = state(alloc, b"oak_stairs[half=top]")?;
    state.well_formed();
    state.copy(alloc).ok()?.well_formed();
    state.properties().well_formed();
    let name = Name::from_vec(Vec::from_slice(alloc, state.name()).ok()?);
    BlockName::from_name(name)?.well_formed();
    Some(())
}

#[test]
fn laws_and_forms_return(rt: HostRuntime) {
    assert_eq!(rt; forms_return(rt.alloc()), Some(()));
}
