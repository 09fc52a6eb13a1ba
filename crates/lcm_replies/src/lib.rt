//! Replies to requests: what they say, their bytes, and how these are told at a door.
#![tactic(auto)]

mod door;
mod listen;
mod outgoing;
mod reply;
mod tell;

pub use door::DoorFailed;
pub use listen::{Reading, read_to_end};
pub use outgoing::Outgoing;
pub use reply::{Reply, bare, location, malformed, refusal, refusal_about, shown, too_large};
pub use tell::tell_reply;
