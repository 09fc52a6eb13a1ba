//! A change is made at most once at a time, and an occurrence that ended well is made or undone whole.

ghost use Rattle.lcm_laws.specs.Nets.{CompletedIsMade, NetsAreZeroOrOne, OneAttemptIsOpen, OpenAttemptsFitNets};
ghost use Rattle.lcm_laws.specs.Nets.{OpenAttemptsFitStates, RolledBackIsUndone};

/// Each net is 0 or 1.
///
/// Source: own rule.
pub fn nets_are_zero_or_one()
    ensures { NetsAreZeroOrOne }
{}

/// A change has at most one open attempt.
///
/// Source: own rule.
pub fn one_attempt_is_open()
    ensures { OneAttemptIsOpen }
{}

/// A change with an open attempt forward has net 0, and one with an open undo net 1.
///
/// Source: own rule.
pub fn open_attempts_fit_nets()
    ensures { OpenAttemptsFitNets }
{}

/// An attempt forward is open only in PROCESSING, and an undo only in ROLLING_BACK.
///
/// Source: SOL 003 5.6.2 (States and state transitions of a VNF LCM operation occurrence).
pub fn open_attempts_fit_states()
    ensures { OpenAttemptsFitStates }
{}

/// Every change of an occurrence that is COMPLETED has net 1.
///
/// Source: own rule.
pub fn completed_is_made()
    ensures { CompletedIsMade }
{}

/// Every change of an occurrence that is ROLLED_BACK has net 0.
///
/// Source: own rule.
pub fn rolled_back_is_undone()
    ensures { RolledBackIsUndone }
{}
