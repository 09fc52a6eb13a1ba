//! The open attempts of an occurrence, event by event.

ghost use Rattle.lcm_laws.specs.Attempting.{BegunAttemptsAreOpen, EndedAttemptsAreNotOpen, OpenAttemptsFitTheWindow};
ghost use Rattle.lcm_laws.specs.Attempting.{OpenAttemptsHaveNotEnded, OtherEventsLeaveAttempts};

/// An attempt that is open hasn't ended.
///
/// Source: own rule.
pub fn open_attempts_have_not_ended()
    ensures { OpenAttemptsHaveNotEnded }
{}

/// An attempt that begins is the latest open one of its occurrence.
///
/// Source: own rule.
pub fn begun_attempts_are_open()
    ensures { BegunAttemptsAreOpen }
{}

/// Once an attempt has ended, the others stay open.
///
/// Source: own rule.
pub fn ended_attempts_are_not_open()
    ensures { EndedAttemptsAreNotOpen }
{}

/// An event that neither begins an attempt nor ends one leaves the open attempts.
///
/// Source: own rule.
pub fn other_events_leave_attempts()
    ensures { OtherEventsLeaveAttempts }
{}

/// An occurrence has at most as many open attempts as the window lets it have.
///
/// Source: own rule.
pub fn open_attempts_fit_the_window()
    ensures { OpenAttemptsFitTheWindow }
{}
