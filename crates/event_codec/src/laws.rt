//! What holds of all spellings, as the contract of a call that does nothing.
ghost use Rattle.event_codec.specs.Prefix.{NoSpellingBeginsAnother};

/// No event's spelling begins another's, and so no two events have one spelling.
///
/// Source: own format, docs/EVENTS.md.
pub fn no_spelling_begins_another()
    ensures { NoSpellingBeginsAnother }
{}
