//! What an attempt did to a resource.

use lcm_events::{Def, Tag, Verb};
use vnfm_base::Name;

/// What an attempt that ended as done did, and to which resource of which instance.
///
/// Source: own rule.
#[derive(Clone, Copy)]
pub struct Effect {
    /// The attempt.
    pub tag: Tag,
    /// The instance.
    pub instance: u64,
    /// The definition of the resource.
    pub def: Def,
    /// What was done.
    pub verb: Verb,
    /// The infrastructure's name of the resource.
    pub resource: Name,
}
