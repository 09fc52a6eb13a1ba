//! What stands of an instance.

ghost use Rattle.lcm_laws.specs.Standing.{ComputesRunAsTheyWereLeft, DeletedInstancesHoldNothing};
ghost use Rattle.lcm_laws.specs.Standing.{IdleInstancesHoldNothing, WhatRunsIsAComputeThatStands, WhatStandsHasAPlace};
ghost use Rattle.lcm_laws.specs.Standing.{WhatStandsIsOfTheDescriptor};

/// What stands of an instance is of its descriptor, with a serial up to the greatest.
///
/// Source: own rule.
pub fn what_stands_is_of_the_descriptor()
    ensures { WhatStandsIsOfTheDescriptor }
{}

/// An instance that is NOT_INSTANTIATED without an operation that goes on holds nothing.
///
/// Source: SOL 003 5.5.2.2 (VnfInstance, instantiationState).
pub fn idle_instances_hold_nothing()
    ensures { IdleInstancesHoldNothing }
{}

/// A deleted instance holds nothing.
///
/// Source: SOL 003 5.4.3 (Individual VNF instance).
pub fn deleted_instances_hold_nothing()
    ensures { DeletedInstancesHoldNothing }
{}

/// What stands of an instance has a resource and a place.
///
/// Source: SOL 003 5.5.3 (the resource infos of an instance).
pub fn what_stands_has_a_place()
    ensures { WhatStandsHasAPlace }
{}

/// What runs of an instance is a compute, and stands.
///
/// Source: SOL 003 5.5.3 (the resource infos of an instance).
pub fn what_runs_is_a_compute_that_stands()
    ensures { WhatRunsIsAComputeThatStands }
{}

/// A compute runs once it is made or started, and doesn't once it is stopped or removed, by a change or by an undo.
///
/// Source: SOL 003 5.4.10 (Operate VNF task).
pub fn computes_run_as_they_were_left()
    ensures { ComputesRunAsTheyWereLeft }
{}
