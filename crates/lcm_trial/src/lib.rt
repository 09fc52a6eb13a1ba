//! The trial: requests drawn from a number, played over a site and an orchestrator in memory, and counted.
#![tactic(auto)]

mod beginning;
mod counts;
mod descriptor;
mod draws;
mod fates;
mod requests;
mod trial;
mod wishes;

pub use counts::{TrialFault, Tried};
pub use trial::make_trial;
