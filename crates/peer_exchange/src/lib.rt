//! One exchange with a peer: a request is sent once, and its reply is read until it is whole, within the limits. It is
//! over every connection, every stopwatch and every kind of reply.
#![tactic(auto)]

mod exchanging;
mod going_on;
mod looking;
mod noted;
mod replies;

pub use exchanging::{Lost, Room, Spent, exchange};
pub use going_on::{Progress, go_on};
pub use looking::{Look, look_now};
pub use noted::{note_asked, note_failed};
pub use replies::{Judged, Reply};
