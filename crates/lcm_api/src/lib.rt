//! Requests and their replies.
#![tactic(auto)]

mod answering;
mod asked;
mod asks;
mod bodies;
mod create;
mod instances;
mod laws;
mod media;
mod occurrences;
mod record;
mod refusals;
mod route;
mod subscribing;
mod subscriptions;
mod tasks;

pub use answering::{ApiFault, answer};
pub use http_wire::{Request, WireFault};
pub use laws::{a_reply_is_last_where_its_request_is, limits_are_fixed, roles_see_their_own};
pub use record::MAX_REQUESTED;
