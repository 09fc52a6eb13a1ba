//! The next action of an occurrence keeps a history legal.

ghost use Rattle.lcm_laws.specs.Acting.{ActiveOccurrencesAct, NextActionsAreAllowed};

/// The events that the next action of an occurrence appends are allowed, for each answer of the outside.
///
/// Source: own rule.
pub fn next_actions_are_allowed()
    ensures { NextActionsAreAllowed }
{}

/// An occurrence that was asked for has exactly one next action while it is active, and any other has none.
///
/// Source: own rule.
pub fn active_occurrences_act()
    ensures { ActiveOccurrencesAct }
{}
