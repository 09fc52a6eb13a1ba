//! The changes of an operation are exactly what is planned, in order.

ghost use Rattle.lcm_laws.specs.Planning.{OperationsBeginInStep, OperationsHavePlans, PlansAreDistinct, PlansAreExact};
ghost use Rattle.lcm_laws.specs.Planning.{PlansAreSmall, PlansAreSorted, PlansFitWhatStands, PlansMeetTheirCounts};

/// A change is in the plan exactly where it is planned.
///
/// Source: own rule.
pub fn plans_are_exact()
    ensures { PlansAreExact }
{}

/// A plan over a valid descriptor is sorted by phase, VDU, serial and item.
///
/// Source: own rule.
pub fn plans_are_sorted()
    ensures { PlansAreSorted }
{}

/// No two changes of a plan over a valid descriptor are equal.
///
/// Source: own rule.
pub fn plans_are_distinct()
    ensures { PlansAreDistinct }
{}

/// Each operation has exactly the changes that were planned when it was asked for, in order.
///
/// Source: own rule.
pub fn operations_have_plans()
    ensures { OperationsHavePlans }
{}

/// No operation has more than 5,000 changes.
///
/// Source: own limit.
pub fn plans_are_small()
    ensures { PlansAreSmall }
{}

/// What a plan makes doesn't stand when it is planned, and what its other changes are about stands.
///
/// Source: own rule.
pub fn plans_fit_what_stands()
    ensures { PlansFitWhatStands }
{}

/// An instance was in step when it was asked to be scaled, started or stopped: each of its machines whole, as many as
/// its levels say, and all links.
///
/// Source: own rule.
pub fn operations_begin_in_step()
    ensures { OperationsBeginInStep }
{}

/// As many machines of each VDU stay or are new as the levels that the ask aims at say, but for OPERATE and TERMINATE,
/// which make none.
///
/// Source: SOL 001 (VduScalingAspectDeltas).
pub fn plans_meet_their_counts()
    ensures { PlansMeetTheirCounts }
{}
