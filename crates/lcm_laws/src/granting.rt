//! Grants: what they give, and what stands behind them.

ghost use Rattle.lcm_laws.specs.Granting.{AttemptsStandBehindGrants, CoveringGrantsAreAllowed};
ghost use Rattle.lcm_laws.specs.Granting.{CoveringRowsPlaceChanges, GrantedChangesHavePlaces, GrantedMeansAGrant};
ghost use Rattle.lcm_laws.specs.Granting.{PlacesAreTheGrants, RecordedPlacesAreThoseOfRows};

/// An occurrence was granted exactly where it has a grant.
///
/// Source: SOL 003 9.4.2 (Grants).
pub fn granted_means_a_grant()
    ensures { GrantedMeansAGrant }
{}

/// The place that was granted to a change is that of the grant.
///
/// Source: SOL 003 9.5.2.3 (Grant).
pub fn places_are_the_grants()
    ensures { PlacesAreTheGrants }
{}

/// Each change of an occurrence that was granted has a place.
///
/// Source: SOL 003 9.5.2.3 (Grant).
pub fn granted_changes_have_places()
    ensures { GrantedChangesHavePlaces }
{}

/// Each attempt begins behind a grant of its occurrence.
///
/// Source: SOL 003 9.4.2 (Grants).
pub fn attempts_stand_behind_grants()
    ensures { AttemptsStandBehindGrants }
{}

/// What rows that cover a plan record places each of its changes.
///
/// Source: SOL 003 9.5.2.3 (Grant).
pub fn covering_rows_place_changes()
    ensures { CoveringRowsPlaceChanges }
{}

/// What rows that cover a plan record gives each change the place of its row.
///
/// Source: SOL 003 9.5.2.3 (Grant).
pub fn recorded_places_are_those_of_rows()
    ensures { RecordedPlacesAreThoseOfRows }
{}

/// A grant whose rows cover the changes of an occurrence that asks for it may be recorded.
///
/// Source: SOL 003 9.5.2.3 (Grant).
pub fn covering_grants_are_allowed()
    ensures { CoveringGrantsAreAllowed }
{}
