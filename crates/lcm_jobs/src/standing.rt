//! What stands among the jobs.

ghost use Rattle.lcm_jobs.specs.Standing.{ChangesStandAtMostOnce, CompletedStandsOnce, RolledBackStandsNot};
ghost use Rattle.lcm_jobs.specs.Standing.{WhatStandsIsTheNet};

/// Each change stands at most once.
///
/// Source: own rule.
pub fn changes_stand_at_most_once()
    ensures { ChangesStandAtMostOnce }
{}

/// What stands of a change is its net by the history, or its net after an open attempt whose job was done.
///
/// Source: own rule.
pub fn what_stands_is_the_net()
    ensures { WhatStandsIsTheNet }
{}

/// Every change of an occurrence that is COMPLETED stands exactly once.
///
/// Source: own rule.
pub fn completed_stands_once()
    ensures { CompletedStandsOnce }
{}

/// No change of an occurrence that is ROLLED_BACK stands.
///
/// Source: own rule.
pub fn rolled_back_stands_not()
    ensures { RolledBackStandsNot }
{}
