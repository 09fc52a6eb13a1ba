//! A grant as it was read.

use lcm_events::{Listed, Place};
use vnfm_base::Name;

/// A row of a grant: the identifier of a resource definition, and the place that it is given.
///
/// Source: SOL 003 9.5.3.3 (GrantInfo).
pub type GrantRow = (Name, Place);

/// A grant as it was read: its identifier, and its rows in order. What a row names may be any name, and may be named
/// twice.
///
/// Source: SOL 003 9.5.2.3 (Grant).

pub struct GrantRows {
    /// The grant's identifier.
    pub grant: Name,
    /// `addResources`.
    pub add: Listed<GrantRow>,
    /// `removeResources`.
    pub remove: Listed<GrantRow>,
    /// `updateResources`.
    pub update: Listed<GrantRow>,
}

impl Drop for GrantRows {
    // Written out, so that the proof of a caller calls it and doesn't take the rows apart at each of its ends.
    fn drop(self) {
        let GrantRows {
            grant: _,
            add: _,
            remove: _,
            update: _,
        } = self;
    }
}
