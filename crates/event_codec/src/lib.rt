//! Events to bytes and back: each event has one spelling, and nothing else is read as one.
#![tactic(auto)]

mod descriptor;
mod fault;
mod input;
mod kinds;
mod laws;
mod lists;
mod numbers;
mod parts;
mod reading;
mod record_buf;
mod words;
mod write_lists;
mod write_parts;
mod writing;

pub use fault::DecodeFault;
pub use laws::no_spelling_begins_another;
pub use reading::decode;
pub use record_buf::RecordBuf;
pub use writing::{TooLong, encode};
