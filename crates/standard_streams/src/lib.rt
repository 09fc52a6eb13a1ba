//! The numbers 0 to 2 of open files are those of the standard streams. A process that is started with one of them
//! closed gives its number to the next file that it opens, which is then written to as if it were a stream. What a
//! program here opens never has such a number: it holds all three before it opens anything else.
#![tactic(auto)]

mod held;
mod null_device;

pub use held::{HeldStreams, hold_streams};
pub use null_device::{NullDevice, NullFiles};
