//! What is asked for fits a record of the journal.

ghost use Rattle.change_planner.specs.Records.{AskedEventsFitRecords};

/// An operation that may be asked for fits a record of 65,536 bytes, where it names at most 512 machines.
///
/// Source: own limit.
pub fn asked_events_fit_records()
    ensures { AskedEventsFitRecords }
{}
