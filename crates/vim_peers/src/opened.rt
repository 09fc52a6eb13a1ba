//! A connection to an infrastructure.

/// A connection that was opened.
#[derive(Drop)]
pub struct Opened<C: Drop> {
    pub connection: C,
    /// Whether a call was made on it.
    pub used: bool,
    /// Whether a call on it failed, or something came on it that no call asked for: what was sent on it may still be
    /// done.
    pub failed: bool,
}
