//! The work on occurrences: the next action of each, done once a turn, until its changes are made, or undone.
#![tactic(auto)]

mod acts;
mod attempts;
mod ends;
mod instances;
mod requests;
mod steps;
mod taking;
mod turns;
mod work;

pub use acts::act;
pub use ends::{Acted, Turn};
pub use turns::turn;
