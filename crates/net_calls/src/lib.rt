//! Calls of std on sockets and of the stopwatch, each as a trait that states what it does. What is trusted of a real
//! one is an impl here of a line or two a call, which tells nothing of its content; what is decided over them is proved
//! over every one. Connections and a stopwatch in memory tell theirs, and meet silences and limits without a wait.
#![tactic(auto)]

mod clients;
mod connections;
mod network;
mod parked;
mod stopwatch;
mod told_connections;
mod told_network;
mod told_stopwatch;

pub use clients::{ClientNet, Line};
pub use connections::Connection;
pub use network::{HostNet, NoConnection, Side, StdNet, Taken};
pub use parked::{Parked, Put, Took};
pub use stopwatch::{StdStopwatch, Stopwatch};
pub use told_connections::{MemConnection, Step};
pub use told_network::{MemListener, MemNet};
pub use told_stopwatch::StepWatch;
