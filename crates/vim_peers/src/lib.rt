//! The infrastructure as it is: each call on jobs is a line over one connection, which is kept, and behind which no
//! second one is opened before it has ended. It is over every network and every stopwatch.
#![tactic(auto)]

mod jobs;
mod link;
mod opened;
mod replies;
mod resting;

pub use jobs::VimPeer;
pub use link::VimLink;
pub use opened::Opened;
pub use replies::LineReply;
pub use resting::Rest;
