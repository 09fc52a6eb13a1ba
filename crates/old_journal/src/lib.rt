//! Journals of format 1: what the bytes of such a file say, and its reader. It writes nothing.
#![tactic(auto)]

mod back;
mod bytes;
mod exclusion;
mod head;
mod header;
mod journal;
mod limits;
mod loading;
mod marks;

pub use exclusion::old_files_are_one_thing;
pub use journal::OldJournal;
pub use limits::old_records_add_up;
pub use loading::OldLoading;
