//! The whole requests of many clients, one after another, as the bytes of one connection; and the answers, each to the
//! client whose request it is of. It holds bytes alone: no socket, no clock.
#![tactic(auto)]

mod answers;
mod client;
mod fronts;
mod gateway;
mod hand;
mod pool;
mod queue;

pub use answers::{AnswerHead, answer_head};
pub use client::Client;
pub use fronts::{Front, FrontReader, Place};
pub use gateway::write_over;
pub use hand::{Answering, Hand};
pub use pool::{Pool, Turn, is_set};
pub use queue::Queue;
