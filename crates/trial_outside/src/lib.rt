//! The outside of a trial: a site and an orchestrator in memory, each with what is always so of its answers.
#![tactic(auto)]

mod orchestrator;
mod plans;
mod site;

pub use orchestrator::TrialOrchestrator;
pub use plans::{BEGINS, FILE_BYTES};
pub use site::TrialSite;
