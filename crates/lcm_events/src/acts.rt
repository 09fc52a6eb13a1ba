//! The work that the infrastructure is asked to do.

use crate::changes::{DefKind, Verb};
use crate::listed::Names;
use vnfm_base::Name;

/// One piece of work at one resource.
#[derive(Drop)]
pub struct Act {
    /// What is done.
    pub verb: Verb,
    /// To what kind of resource.
    pub kind: DefKind,
    /// The descriptor's name of the link, storage or port, or of the VDU for a compute.
    pub template: Name,
    /// The name of the VDU, empty for a link.
    pub vdu: Name,
    /// The serial number of the VNFC, 0 for a link.
    pub serial: u32,
    /// The connection to the infrastructure's manager.
    pub vim: Name,
    /// The zone, maybe empty.
    pub zone: Name,
    /// A compute's memory or a storage's size in bytes, else 0.
    pub size: u64,
    /// A compute's processors, else 0.
    pub cpus: u32,
    /// The names of the resources that it is done on.
    pub on: Names,
}
