//! Both tables of a history as one: whether an event may follow, room for it, and the tables after it. Nothing asks a
//! list of events.
#![tactic(auto)]

mod asks;
mod judges;
mod notices;
mod tables;

pub use judges::{WINDOW, window_is_that_of_histories};
pub use tables::Tables;
