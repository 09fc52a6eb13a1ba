//! What happened in a journal, for a person: the events that are chosen, a line each, or one page.
#![tactic(auto)]

mod chosen;
mod lines;
mod page;
mod reporting;

pub use chosen::Chosen;
pub use lines::{TellFault, tell_lines};
pub use page::tell_page;
pub use reporting::{Form, ReportFault, Wish, report};
