//! What was heard and answered on the connections of a run, for a person who asks how it went.
#![tactic(auto)]

mod account;

pub use account::{Account, Hearing, JsonBreak};
