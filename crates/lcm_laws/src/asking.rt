//! What is known of an occurrence that was asked for, and of one that wasn't.

ghost use Rattle.lcm_laws.specs.Asking.{EventsAreAboutOccurrences, TroubleLasts, UnaskedOccurrencesAreUntouched};

/// An event is about an occurrence that was asked for before it.
///
/// Source: own rule.
pub fn events_are_about_occurrences()
    ensures { EventsAreAboutOccurrences }
{}

/// Nothing was done to an occurrence that wasn't asked for.
///
/// Source: own rule.
pub fn unasked_occurrences_are_untouched()
    ensures { UnaskedOccurrencesAreUntouched }
{}

/// Trouble lasts until the next move of the occurrence.
///
/// Source: own rule.
pub fn trouble_lasts()
    ensures { TroubleLasts }
{}
