//! What stands of an instance.

use crate::changes::Def;
use crate::descriptor::Levels;
use crate::listed::Listed;
use crate::places::Place;
use vnfm_base::Name;

/// A resource that stands.
#[derive(Clone, Copy)]
pub struct Held {
    /// Its definition.
    pub def: Def,
    /// The infrastructure's name of it.
    pub resource: Name,
    /// Where it stands.
    pub place: Place,
    /// Whether it runs, for a compute.
    pub running: bool,
}

/// What stands of an instance, and how it is meant to stand.
pub struct Holding {
    /// INSTANTIATED, not NOT_INSTANTIATED.
    pub instantiated: bool,
    /// STARTED, not STOPPED.
    pub started: bool,
    /// The scale level of each aspect.
    pub levels: Levels,
    /// What stands, in order of definition.
    pub items: Listed<Held>,
    /// The greatest serial number that any change gave, for each VDU.
    pub top: Listed<u32>,
}

impl Drop for Holding {
    // Written out, so that the proof of a caller calls it and doesn't take the holding apart at each of its ends.
    fn drop(self) {
        let Holding {
            instantiated: _,
            started: _,
            levels: _,
            items: _,
            top: _,
        } = self;
    }
}
