//! What a subscription's tries are of.

ghost use Rattle.instance_table.specs.Deliveries.{TriesAreOfTheNextNotice};

/// The tries in a subscription's row are how often the notice that comes next was posted and not taken.
///
/// Source: own rule.
pub fn tries_are_of_the_next_notice()
    ensures { TriesAreOfTheNextNotice }
{}
