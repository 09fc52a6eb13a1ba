//! Why bytes are no line.

use thiserror::Error;

/// Why bytes give no call and no reply.
#[derive(Debug, Drop, Error)]
pub enum VimFault {
    /// The bytes are no such line.
    #[error("no line")]
    NotLine,
    /// There is no memory for the call.
    #[error("no memory")]
    Memory,
}
