//! What is done next for an occurrence, by its row.
#![tactic(auto)]

mod steps;

pub use steps::{Step, step_by};
