//! What holds in every legal history: each law is the contract of a call that does nothing.
#![tactic(auto)]

mod acting;
mod asking;
mod attempting;
mod beginnings;
mod granting;
mod holdings;
mod levelling;
mod moves;
mod needing;
mod nets;
mod operations;
mod plans;
mod serials;
mod standing;

pub use acting::{active_occurrences_act, next_actions_are_allowed};
pub use asking::{events_are_about_occurrences, trouble_lasts, unasked_occurrences_are_untouched};
pub use attempting::{
    begun_attempts_are_open, ended_attempts_are_not_open, open_attempts_fit_the_window,
    open_attempts_have_not_ended, other_events_leave_attempts,
};
pub use beginnings::{beginnings_are_legal, each_event_was_allowed};
pub use granting::{
    attempts_stand_behind_grants, covering_grants_are_allowed, covering_rows_place_changes,
    granted_changes_have_places, granted_means_a_grant, places_are_the_grants,
    recorded_places_are_those_of_rows,
};
pub use holdings::{few_definitions_stand, holdings_are_exact, holdings_are_of_the_descriptor};
pub use levelling::levels_are_targets;
pub use moves::moves_are_paths;
pub use needing::{
    computes_stand_beside_links, needs_are_exact, what_stands_is_on_what_stands,
    work_finds_what_it_needs, work_fits_what_stands,
};
pub use nets::{
    completed_is_made, nets_are_zero_or_one, one_attempt_is_open, open_attempts_fit_nets,
    open_attempts_fit_states, rolled_back_is_undone,
};
pub use operations::{
    numbers_run_from_one, one_operation_goes_on, operations_are_found, operations_stay_found,
};
pub use plans::{
    operations_begin_in_step, operations_have_plans, plans_are_distinct, plans_are_exact,
    plans_are_small, plans_are_sorted, plans_fit_what_stands, plans_meet_their_counts,
};
pub use serials::serials_are_counted;
pub use standing::{
    computes_run_as_they_were_left, deleted_instances_hold_nothing, idle_instances_hold_nothing,
    what_runs_is_a_compute_that_stands, what_stands_has_a_place, what_stands_is_of_the_descriptor,
};
