//! Which rows can be shown, and how moments are.
ghost use Rattle.json_views.specs.Moments.{AreMomentTexts, AreTextsOfMoments};
ghost use Rattle.json_views.specs.Occurrences.{LegalOccurrencesCanBeShown};
ghost use Rattle.json_views.specs.Showable.{LegalRowsCanBeShown};

/// The rows of a legal history can be shown: all of them by `instances_view`, and each that is found by its number by
/// `instance_view`, with the descriptor that it names.
///
/// Source: own rule.
pub fn legal_rows_can_be_shown()
    ensures { LegalRowsCanBeShown }
{}

/// The occurrences of a legal history can be shown: all of them by `occurrences_view`, and each that is found by its
/// number by
/// `occurrence_view`, with the descriptor that its row names.
///
/// Source: own rule.
pub fn legal_occurrences_can_be_shown()
    ensures { LegalOccurrencesCanBeShown }
{}

/// A moment has one text, by the one date of its day, and views show it.
///
/// Source: RFC 3339.
pub fn moments_have_one_text()
    ensures one { AreMomentTexts }
    ensures has { AreTextsOfMoments }
{}
