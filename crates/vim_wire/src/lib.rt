//! The lines between a manager and an infrastructure, both ways: each call and each reply has one line, and nothing
//! else is read as one.
#![tactic(auto)]

mod fault;
mod fields;
mod laws;
mod lines;
mod parts;
mod reading;
mod sequences;
mod writing;

pub use fault::VimFault;
pub use laws::no_line_begins_another;
pub use lines::{LINE_BYTES, VimCall, VimReply};
pub use reading::{read_call, read_reply};
pub use writing::{abort_line, begin_line, look_line, reply_line};
