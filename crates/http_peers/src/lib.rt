//! The orchestrator and the courier as they are: each exchange is a request over HTTP on a connection of its own,
//! within the limits. They are over every network and every stopwatch.
#![tactic(auto)]

mod caller;
mod counted;
mod courier;
mod faults;
mod kept;
mod opened;
mod orchestrator;
mod peer;
mod replies;
mod sent_log;
mod targets;

pub use caller::HttpCaller;
pub use courier::RealCourier;
pub use faults::CallFault;
pub use kept::{AT_ONCE, KEPT_BYTES, Kept, LOOKS, MOST_KEPT};
pub use opened::Opened;
pub use orchestrator::RealOrchestrator;
pub use peer::HttpPeer;
pub use replies::HttpReply;
pub use sent_log::SentLog;
pub use targets::{Target, TargetFault, target_of, url_of};
