//! Whether the filter of a subscription lets a notice through.
#![tactic(auto)]

mod facts;
mod filters;
mod sorted;

pub use facts::{AskedNotice, NoticeFacts};
pub use filters::matches;
pub use sorted::SortedFilter;
