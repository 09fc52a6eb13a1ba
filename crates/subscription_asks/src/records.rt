//! A subscription that may be made fits a record of the journal.
ghost use Rattle.subscription_asks.specs.Records.{AskedFiltersAreSmall, SubscribedEventsFitRecords};

/// A subscription that may be made fits a record of 65,536 bytes, whatever its filter and its callback are.
///
/// Source: own limit.
pub fn subscribed_events_fit_records()
    ensures { SubscribedEventsFitRecords }
{}

/// Each list of the filter that `read_subscription` reads has at most 64 values, as one that may be recorded has.
///
/// Source: own limit.
pub fn asked_filters_are_small()
    ensures { AskedFiltersAreSmall }
{}
