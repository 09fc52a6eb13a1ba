//! Definitions of resources and the changes that a plan makes to them.

ghost use Rattle.std.specs.Prelude.{◌≡◌};
ghost use Rattle.lcm_events.specs.Same.{kind_number};

use crate::listed::Listed;

/// What a definition names.
///
/// Source: SOL 003 9.5.2.2 (GrantRequest), whose resource definitions have these types.
#[derive(Clone, Copy, PartialEq, Eq)]
pub enum DefKind {
    /// A virtual link.
    Link,
    /// A virtual storage.
    Storage,
    /// A virtual compute.
    Compute,
    /// A connection point of a VDU.
    Port,
}

impl DefKind {
    /// Its number in the order of definitions, from 0.
    ///
    /// Source: own rule.
    pub fn number(self) -> u8
        ensures { result ≡ kind_number self }
    {
        match self {
            DefKind::Link => 0,
            DefKind::Storage => 1,
            DefKind::Compute => 2,
            DefKind::Port => 3,
        }
    }
}

/// The name of a resource of an instance.
///
/// `item` is the number of the link, storage or port in the descriptor, and 0 for a compute. A link has `vdu` 65,535
/// and `serial` 0.
#[derive(Clone, Copy, PartialEq, Eq)]
pub struct Def {
    /// What it is.
    pub kind: DefKind,
    /// The number of the link, storage or port.
    pub item: u16,
    /// The number of the VDU.
    pub vdu: u16,
    /// The serial number of the VNFC, from 1.
    pub serial: u32,
}

/// What a change does to its resource.
#[derive(Clone, Copy, PartialEq, Eq)]
pub enum Verb {
    /// Makes it.
    Create,
    /// Takes it away.
    Remove,
    /// Starts the compute.
    Start,
    /// Stops the compute.
    Stop,
}

/// A change of a plan. Phases go from 0, links created, to 8, links removed.
#[derive(Clone, Copy, PartialEq, Eq)]
pub struct Change {
    /// When it is its turn, from 0 to 8.
    pub phase: u8,
    /// What it does.
    pub verb: Verb,
    /// To which resource.
    pub def: Def,
}

/// A list of changes.
pub type Changes = Listed<Change>;
