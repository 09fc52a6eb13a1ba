//! Every beginning of a legal history is legal.

ghost use Rattle.lcm_laws.specs.Beginnings.{BeginningsAreLegal, EachEventWasAllowed};

/// The beginning of a legal history is a legal history.
///
/// Source: own rule.
pub fn beginnings_are_legal()
    ensures { BeginningsAreLegal }
{}

/// Each event of a legal history was allowed after the events before it.
///
/// Source: own rule.
pub fn each_event_was_allowed()
    ensures { EachEventWasAllowed }
{}
