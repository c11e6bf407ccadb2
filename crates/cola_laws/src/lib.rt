//! The levels of the lookahead array as lists of runs: what is sound between two mutations, and the laws by which one
//! mutation keeps it.
//!
//! Nothing here stores a cell. A law is a function that does nothing: its clauses are the law, over any ordered key and
//! any value. That an array of doubling runs is merged a few steps at a time, with lookahead cells sampled from the run
//! below, is of "Cache-oblivious streaming B-trees" (Bender, Farach-Colton, Fineman, Fogel, Kuszmaul and Nelson, SPAA
//! 2007). The clock, its windows, the shadows with their young items and the proof are this store's own.
#![tactic(auto)]

mod builds;
mod flips;
mod mutation;
mod reading;
mod slots;

pub use builds::{
    bottom_is_short, builds_can_be_done, builds_sample_one_run, no_build_overflows,
    runs_fit_their_slots, steps_go_on, top_can_be_built,
};
pub use flips::{
    finished_shadow_answers, flipping_levels_are_finished, flips_keep_soundness,
    flips_show_shadows, window_ends_finished,
};
pub use mutation::{
    empty_chain_is_sound, fewer_steps_count, loaded_chain_is_sound, one_level_advances,
    one_mutation_keeps, refused_mutation_keeps, sources_stay_while_levels_work,
    steps_keep_soundness, whole_runs_keep,
};
pub use reading::{clock_may_wrap, few_live_keys, sound_reads, visible_runs_are_searched};
pub use slots::{
    clock_may_wrap_in_slots, flips_move_no_cell, levels_have_their_marks, one_mutation_in_slots,
    sound_marks,
};
