//! What a request to subscribe asks for that may be refused: what its members say, once each is well formed.
#![tactic(auto)]

mod records;
mod refusals;

pub use records::{asked_filters_are_small, subscribed_events_fit_records};
pub use refusals::{SubscriptionRefusal, content_refusal, is_http_uri};
