//! How many descriptors, instances and subscriptions a manager keeps at most.

/// The most descriptors that may be onboarded.
///
/// Source: own rule.
pub const MAX_DESCRIPTORS: u64 = 256;

/// The most instances that may be live at one time.
///
/// Source: own rule.
pub const MAX_INSTANCES: u64 = 1_000;

/// The most subscriptions of one role that may be live at one time.
///
/// Source: own rule.
pub const MAX_SUBSCRIPTIONS: u64 = 100;
