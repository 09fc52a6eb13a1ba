//! The notices that wait for each live subscription: which place a post may name, event by event.
#![tactic(auto)]

mod marks;
mod queues;
mod table;

pub use table::NoticeTable;
