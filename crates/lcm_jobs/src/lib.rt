//! When the jobs of an infrastructure agree with a history, what keeps them so, and what follows: each law is the
//! contract of a call that does nothing.
#![tactic(auto)]

mod alternating;
mod backing;
mod beside;
mod idle;
mod keeping;
mod standing;

pub use alternating::{each_attempt_has_one_job, jobs_alternate, running_jobs_are_open};
pub use backing::jobs_are_granted_work;
pub use beside::computes_stand_beside_theirs;
pub use idle::idle_instances_have_no_job_standing;
pub use keeping::{
    endings_stay_agreed, fitting_events_may_come, jobs_may_arrive_behind_intents, jobs_may_end,
    new_attempts_have_no_job,
};
pub use standing::{
    changes_stand_at_most_once, completed_stands_once, rolled_back_stands_not,
    what_stands_is_the_net,
};
