//! The outside as it is: the journal's file under its lock, a connection over a reader and a writer, the machine's
//! clock, a stream, and what stands in for peers that can't be reached. Each is over calls of std that host_calls
//! states, tells what they tell, and counts its failures.
#![tactic(auto)]

mod counted;
mod job_log;
mod jobs;
mod no_peers;
mod real_clock;
mod real_door;
mod real_sink;
mod real_site;
mod standing;

pub use job_log::JobLog;
pub use jobs::{Jobs, NoJobs};
pub use no_peers::{NoCourier, NoOrchestrator};
pub use real_clock::RealClock;
pub use real_door::RealDoor;
pub use real_sink::RealSink;
pub use real_site::{FolderSync, RealSite, WhyLost};
pub use standing::{FileNumber, OpenFile, may_be_written};
