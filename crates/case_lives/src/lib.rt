//! Lives of an instantiation of the edge router, as runs have them: the steps that are recorded and their records, the
//! calls on a site, what a stop among them leaves, and whether the jobs agree with what is recorded; and the posts of a
//! life. Beside them the words, numbers and lists that acts are spelled in, and the texts that runs ask with and compare
//! with.
#![tactic(auto)]

mod calls;
mod differences;
mod events;
mod jobs;
mod plan;
mod posts;
mod records;
mod sound;
mod steps;
mod stops;
mod texts;
mod words;
mod work;

pub use calls::{Calls, calls_of, opening};
pub use differences::{ActFault, Difference, differs, quoted, same_file, same_text, same_word};
pub use events::{about, descriptor, event_of, name, operation};
pub use jobs::{calls_on_jobs, job_text, tag_text};
pub use plan::{Plan, plain_site};
pub use posts::{
    Sent, behind_lines, first_records, has_line, made_until, posts_of, records_in, tell_of_these,
};
pub use records::{At, Step, front_of, front_with, journal_with};
pub use sound::{agrees, change_done, changes_standing};
pub use steps::steps_of;
pub use stops::{Earlier, Stop, Whole};
pub use texts::Names;
pub use words::{CaseFault, behind, code, count, entries, list, number, part, small, truth, word};
pub use work::work_text;
