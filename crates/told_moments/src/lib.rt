//! When something was told, by the moments of a site: a history that only proofs read.
#![tactic(auto)]

mod log;

pub use log::ToldMoments;
