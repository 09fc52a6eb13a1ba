//! What the bytes of a journal's file say: what stands at the place of a gate, and which records a batch has.
#![tactic(auto)]

mod content;
mod limits;
mod reader;
mod window;

pub use limits::{BLOCK, MAX_BATCH, MAX_FILE, MAX_RECORD};
pub use reader::{Head, Reader};
