//! Requests of HTTP/1.1 out of a connection's bytes, in whatever pieces they come.
#![tactic(auto)]

mod intake;
mod laws;
mod request;
mod take;
mod wire;

pub use laws::{limits_are_as_stated, nothing_refused_waits};
pub use request::{Request, Taken, WireFault};
pub use wire::Wire;

/// Requests of one connection. The last of them is the connection's last.
pub const CONNECTION_REQUESTS: u32 = 65_536;
