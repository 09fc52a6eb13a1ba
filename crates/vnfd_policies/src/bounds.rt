//! The limits of policies.
ghost use Rattle.std.specs.Prelude.{◌≡◌};
ghost use Rattle.vnfd_policies.specs.declared.bounds.TheConstants.{ASPECTS, INSTANCES, LEVELS, MAXIMUM};

/// The most aspects of a descriptor.
pub const ASPECTS: usize = 16;

/// The greatest level of an aspect.
pub const MAXIMUM: u32 = 1_000;

/// The most instances that a step adds, and that a policy gives a VDU at first.
pub const INSTANCES: u32 = 65_535;

/// The most levels of a descriptor.
pub const LEVELS: usize = 64;

/// The limits, as numbers: 16 aspects, each with levels to 1,000; 65,535 instances that a step adds or that a VDU has
/// at first; 64 levels.
pub fn limits()
    ensures aspects { ASPECTS ≡ 16 }
    ensures maximum { MAXIMUM ≡ 1000 }
    ensures instances { INSTANCES ≡ 65535 }
    ensures levels { LEVELS ≡ 64 }
{}
