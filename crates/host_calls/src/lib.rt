//! Calls of std on files, streams and the clock, each as a trait that states what it does. What is trusted of a real
//! one is an impl here of one line a call, which tells nothing of its content; what is decided over them is proved over
//! every one. That content can be told is shown by files and streams in memory.
#![tactic(auto)]

mod files;
mod streams;
mod time;
mod told_files;
mod told_streams;

pub use files::{HostFile, HostFiles, StdFiles};
pub use streams::{InStream, OutStream};
pub use time::{StdTime, TimeOfDay};
pub use told_files::{Folder, MemFile};
pub use told_streams::{Drain, Source};
