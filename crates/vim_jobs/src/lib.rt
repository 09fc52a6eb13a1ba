//! An infrastructure in memory for trials: its jobs, and the answers to the lines of a connection.
#![tactic(auto)]

mod jobs;
mod serving;

pub use jobs::VimJobs;
pub use serving::{Served, serve};
