//! What stands of an instance, event by event, as a list in order of definition.
#![tactic(auto)]

mod editor;
mod following;
mod items;
mod order;

pub use editor::Editor;
pub use following::{
    items_are_found, items_are_in_order, items_follow_what_is_done, items_of_others_stay,
    items_tell_places, new_instances_hold_nothing, open_attempts_have_changes,
    other_events_leave_items, other_events_leave_places, places_of_removals_stay,
};
pub use order::find;
