//! What stands around the real objects of a program that serves without end: a door waits no longer than what was done
//! asks for, and a person is told which peers' calls fail.
#![tactic(auto)]

mod faults;
mod lines;
mod noted_files;
mod paces;
mod served_door;
mod watched;

pub use faults::{PeerFaults, PeerKind, Told};
pub use lines::{listening_line, no_listening_line};
pub use noted_files::{NamedFile, NotedFile, NotedFiles};
pub use served_door::ServedDoor;
pub use watched::{WatchedCourier, WatchedJobs, WatchedOrchestrator};
