//! Why the work on an occurrence stopped.

/// Why the work on an occurrence stopped.
///
/// Source: SOL 003 5.5.2.13 (VnfLcmOpOcc, error).
#[derive(Clone, Copy)]
pub enum Cause {
    /// The grant was denied.
    Denied,
    /// The grant doesn't cover what was asked for.
    NotCovering,
    /// Five tries led to no grant.
    NoGrant,
    /// An attempt broke.
    Broken {
        /// The number of its change.
        change: u16,
        /// The infrastructure's code.
        code: u32,
    },
    /// An attempt was aborted.
    Aborted {
        /// The number of its change.
        change: u16,
    },
    /// The call that was to begin an attempt failed, and the attempt never began.
    CallFailed {
        /// The number of its change.
        change: u16,
    },
    /// A cancel was asked for.
    Cancelled,
}
