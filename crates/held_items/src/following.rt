//! What each event makes of what stands of an instance.

ghost use Rattle.held_items.specs.Following.{ItemsAreFound, ItemsAreInOrder, ItemsFollowWhatIsDone, ItemsOfOthersStay};
ghost use Rattle.held_items.specs.Following.{ItemsTellPlaces, NewInstancesHoldNothing, OpenAttemptsHaveChanges};
ghost use Rattle.held_items.specs.Following.{OtherEventsLeaveItems, OtherEventsLeavePlaces, PlacesOfRemovalsStay};

/// An open attempt is of an operation, and of one of its changes.
///
/// Source: own rule.
pub fn open_attempts_have_changes()
    ensures { OpenAttemptsHaveChanges }
{}

/// Where an attempt is done, its definition is made, removed, started or stopped among the items of its instance, by a
/// change or by an undo. Where it is made, there is a place for it.
///
/// Source: SOL 003 5.5.3 (the resource infos of an instance).
pub fn items_follow_what_is_done()
    ensures { ItemsFollowWhatIsDone }
{}

/// An attempt that is done leaves the items of the instances that its operation isn't of.
///
/// Source: own rule.
pub fn items_of_others_stay()
    ensures { ItemsOfOthersStay }
{}

/// Every event but an attempt that is done leaves the items of every instance.
///
/// Source: own rule.
pub fn other_events_leave_items()
    ensures { OtherEventsLeaveItems }
{}

/// Nothing stands of an instance that is just created.
///
/// Source: SOL 003 5.4.2 (VNF instances).
pub fn new_instances_hold_nothing()
    ensures { NewInstancesHoldNothing }
{}

/// The items of an instance stand in order of definition, and are at most 2,500.
///
/// Source: own limit.
pub fn items_are_in_order()
    ensures { ItemsAreInOrder }
{}

/// An item is found by its definition exactly where the definition stands.
///
/// Source: own rule.
pub fn items_are_found()
    ensures { ItemsAreFound }
{}

/// The item of what stands says where it stands.
///
/// Source: SOL 003 5.5.3 (the resource infos of an instance).
pub fn items_tell_places()
    ensures { ItemsTellPlaces }
{}

/// Every event but an attempt that is done leaves the places of all definitions.
///
/// Source: own rule.
pub fn other_events_leave_places()
    ensures { OtherEventsLeavePlaces }
{}

/// No event changes the place of what an operation removes while the operation goes on, so that an undo finds it.
///
/// Source: own rule.
pub fn places_of_removals_stay()
    ensures { PlacesOfRemovalsStay }
{}
