//! The limits of onboarding.
ghost use Rattle.std.specs.Prelude.{◌≡◌};

/// Bytes of a connection that are read: one more than a descriptor may have.
pub const MAX_READ: usize = 1_048_577;

/// Descriptors that a journal may have.
pub const MAX_DESCRIPTORS: u64 = lcm_model::MAX_DESCRIPTORS;

/// That the limits of onboarding are these. It does nothing, and its contract is the law.
///
/// Source: own rule, docs/DESCRIPTORS.md.
pub fn limits_are_fixed()
    ensures read { MAX_READ ≡ 1048577 }
    ensures descriptors { MAX_DESCRIPTORS ≡ 256 }
{}
