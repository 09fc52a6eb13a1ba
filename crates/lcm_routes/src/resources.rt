//! The resources of the VNF lifecycle management interface.

use lcm_events::{OpKind, Task};

/// What a path names.
///
/// Source: SOL 003 5.3 (Resource structure and methods).
#[derive(Clone, Copy, PartialEq, Eq)]
pub enum Resource {
    /// All instances.
    Instances,
    /// One instance.
    Instance,
    /// A task of an instance.
    InstanceTask(OpKind),
    /// All occurrences.
    Occurrences,
    /// One occurrence.
    Occurrence,
    /// A task of an occurrence.
    OccurrenceTask(Task),
    /// All subscriptions.
    Subscriptions,
    /// One subscription.
    Subscription,
}
