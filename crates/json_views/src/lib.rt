//! The views that answers show, written as JSON.
#![tactic(auto)]

mod affected;
mod errors;
mod instance;
mod instances;
mod laws;
mod links;
mod members;
mod occurrence;
mod occurrence_links;
mod occurrences;
mod params;
mod resources;
mod rows;
mod subscription;
mod words;

pub use instance::{created_view, identifier, instance_id, instance_path, instance_view};
pub use instances::instances_view;
pub use laws::{legal_occurrences_can_be_shown, legal_rows_can_be_shown, moments_have_one_text};
pub use occurrence::{occurrence_id, occurrence_path, occurrence_view};
pub use occurrences::{MAX_LISTED, occurrences_view};
pub use subscription::{subscription_id, subscription_path, subscription_view, subscriptions_view};
pub use words::{kind_word, notice_word, state_word};
