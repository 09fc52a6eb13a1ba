//! The journal: records behind gates in one file, each on the disk before it counts.
#![tactic(auto)]

mod back;
mod create;
mod exclusion;
mod header;
mod journal;
mod limits;
mod loading;
mod marks;
mod through;

pub use back::BackFault;
pub use create::{CreateFault, made_bytes, make_file, may_be_made};
pub use exclusion::files_are_one_thing;
pub use journal::{AppendFault, Journal};
pub use journal_records::{MAX_FILE, MAX_RECORD};
pub use limits::{faults_are_counted, limits_are_fixed, records_add_up};
pub use loading::{Found, LoadFault, Loading};
