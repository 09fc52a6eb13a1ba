//! The plan of an operation, and why an operation is refused, over what stands of its instance. The plan alone, and
//! whether what stands is in step, are change_planner's.
#![tactic(auto)]

mod aims;
mod changes;
mod levels;
mod plans;
mod refusals;

pub use aims::target_in;
pub use changes::are_same;
pub use levels::{LevelFault, StepFault, count, level_of, stepped, target, vnfd_valid};
pub use plans::plan_standing;
pub use refusals::content_refusal_in;
