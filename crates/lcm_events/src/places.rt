//! Where a resource stands.

use vnfm_base::Name;

/// A place that a grant gives: a connection to an infrastructure manager and a zone, each maybe empty.
///
/// Source: SOL 003 9.5.2.3 (Grant).
#[derive(Clone, Copy, PartialEq, Eq)]
pub struct Place {
    /// The `vimConnectionId`.
    pub vim: Name,
    /// The `zoneId`.
    pub zone: Name,
}
