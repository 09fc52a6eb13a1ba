//! How long calls on connections may wait, each limit a constant with its reason, what is left of them at a moment, and
//! when a round is due.
#![tactic(auto)]

mod laws;
mod limits;
mod pace;
mod pulse;

pub use laws::limits_are_these;
pub use limits::{
    APART, CONNECT, ENDING, Exchange, GATHERED, HELD, INFRASTRUCTURE, KEPT, LATE, LATE_REQUESTS,
    LINGER, LONG_REQUESTS, LONGEST, ORCHESTRATOR, PIECE, POST, SPENT, STUCK, WAITING, WITHIN,
    exchange_limit,
};
pub use pace::{Pace, RESTING};
pub use pulse::Pulse;
