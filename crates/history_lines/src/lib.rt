//! The line that tells a person of an event of the journal.
#![tactic(auto)]

mod attempts;
mod lines;
mod words;

pub use lines::push_line;
