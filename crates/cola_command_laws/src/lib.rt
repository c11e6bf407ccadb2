//! How `serve` ends, mode by mode and status by status, taken apart in plain terms.
#![tactic(auto)]

mod check_laws;
mod definition_laws;
mod laws;
mod mirror_laws;
mod mode_laws;
mod serving_laws;

pub use check_laws::checked_files_are_judged;
pub use definition_laws::{
    carried_out, file_sessions_end, files_are_left, fronts_have_all_before_the_last,
    lines_have_causes, look_ups_read_a_block_a_level, memory_sessions_end, modes_are_served,
    new_files_end, refusals_have_statuses, sessions_are_led, stores_read_each_block_once,
    transfers_of_turns,
};
pub use laws::{
    few_bytes_are_read, memory_sessions_complete, new_files_complete, session_limits,
    statuses_are_known,
};
pub use mirror_laws::{
    files_that_differ, mirrored_files_are_left, mirrored_sessions_complete,
    mirrored_turns_count_faults, mirrors_have_statuses,
};
pub use mode_laws::{checks_are_told, files_with_bytes_stay, rebuilds_are_told, upgrades_are_told};
pub use serving_laws::{
    file_sessions_complete, file_sessions_transfer_few, files_stand, stores_of_turns,
    turns_count_faults, turns_keep_bounds,
};
