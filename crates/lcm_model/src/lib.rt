//! What a history of events means: its definitions, the words that they use, and a program for each question that a
//! descriptor, a plan or a grant answers alone. What the history itself answers, tables keep.
#![tactic(auto)]

mod actions;
mod definitions;
mod grants;
mod holding;
mod levels;
mod limits;
mod moves;
mod operations;
mod refusals;
mod targets;
mod valid;

pub use actions::Action;
pub use definitions::is_def_before;
pub use grants::{each_once, is_placing, is_seen, place_in};
pub use holding::Effect;
pub use levels::count_in;
pub use limits::{MAX_DESCRIPTORS, MAX_INSTANCES, MAX_SUBSCRIPTIONS};
pub use moves::{ends, may_follow, works};
pub use operations::{op_kind, verb_in_way};
pub use refusals::{Refusal, TaskRefusal};
pub use targets::{aspect_of, level_named, replaced_levels, stepped_levels};
pub use valid::{are_levels_in, is_valid};
