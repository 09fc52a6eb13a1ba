//! The body of a notice: what a subscriber is told.
#![tactic(auto)]

mod laws;
mod notices;
mod texts;
mod words;

pub use laws::worked_notices_have_their_bodies;
pub use notices::{Notice, Subject, notice_body};
