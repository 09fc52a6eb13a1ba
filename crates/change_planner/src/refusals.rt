//! Why there is no plan.

use thiserror::Error;

/// Why an ask has no plan over what stands.
#[derive(Debug, Drop, Error)]
pub enum PlanRefusal {
    /// HEAL names a machine of which nothing stands: the first such entry of its list, numbered from 0.
    #[error("entry {0} names no VNFC")]
    UnknownVnfc(usize),
    /// SCALE_TO_LEVEL aims at the present levels, or OPERATE at the present state.
    #[error("nothing to do")]
    NothingToDo,
    /// The VDU of this number, the first such, would have more machines than its maximum.
    #[error("VDU {0} above its maximum")]
    AboveProfile(u16),
    /// So many definitions would stand or be made, more than an instance may have.
    #[error("{0} resources are too many")]
    TooMany(u64),
    /// There is no memory for the plan.
    #[error("no memory")]
    Memory,
}
