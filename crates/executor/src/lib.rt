//! The manager of a journal.
#![tactic(auto)]

mod asks;
mod laws;
mod manager;
mod open;
mod recording;

pub use asks::AskFault;
pub use laws::{
    WINDOW, a_bad_record_is_the_only_one, a_file_has_one_history,
    a_legal_history_has_no_bad_record, what_was_told_of_stays, window_is_fixed, works_add_up,
    works_with_jobs_add_up,
};
pub use manager::{Manager, OpenFault, ReadFault, WorkFault};
pub use open::Judged;
