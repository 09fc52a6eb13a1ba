//! The table of descriptors, instances and subscriptions: what the history says of each, kept event by event.
#![tactic(auto)]

mod aims;
mod copies;
mod deliveries;
mod following;
mod going;
mod instances;
mod reserving;
mod rows;
mod standing;
mod subscriptions;
mod table;
mod tops;
mod work;

pub use copies::copied_filter;
pub use deliveries::tries_are_of_the_next_notice;
pub use going::{EndEffect, Going, Placing};
pub use rows::{InstanceRow, SubscriptionRow};
pub use standing::rows_have_holdings;
pub use table::InstanceTable;
