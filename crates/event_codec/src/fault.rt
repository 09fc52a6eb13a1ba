//! Why bytes give no event.

use thiserror::Error;

/// Why bytes give no event.
#[derive(Debug, Drop, Error)]
pub enum DecodeFault {
    /// The bytes are no event's spelling.
    #[error("no event")]
    NotEvent,
    /// There is no memory for the event.
    #[error("no memory")]
    Memory,
}
