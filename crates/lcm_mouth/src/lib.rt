//! The connection at hand: requests are heard from it, and the replies to them are told.
#![tactic(auto)]

mod account;
mod mouth;

pub use mouth::Mouth;
