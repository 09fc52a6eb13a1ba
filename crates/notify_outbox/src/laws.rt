//! What holds of the notices that wait, as the contract of a call that does nothing.
ghost use Rattle.notify_outbox.specs.Laws.{NoneIsPostedTooOften, NoneIsSkipped, NoticesGoInOrder, NoticesStay};
ghost use Rattle.notify_outbox.specs.Laws.{NoticesTellOfWhatStands, RoundsTellOfTheirBeginning};
ghost use Rattle.notify_outbox.specs.Lent.{telling};

use site_traits::{Courier, Site};

/// The event of a notice that waits stands at its place in each history that goes on from the one in which it waits,
/// and so, by the contract of `deliver`, in every image since its start: nothing is posted of what a stop may take
/// back.
///
/// Source: own rule.
pub fn notices_stay()
    ensures { NoticesStay }
{}

/// The notices of a subscription are posted in their order: the first that waits is no earlier one later on, was
/// neither taken nor refused five times, and each before it was, so that one is posted again only until then and none
/// is skipped. And what is posted in a round tells of an event that was there when its deliveries began.
///
/// Source: SOL 003 5.4.20 (Notification endpoint).
pub fn notices_go_in_order()
    ensures order { NoticesGoInOrder }
    ensures again { NoneIsPostedTooOften }
    ensures skipped { NoneIsSkipped }
    ensures beginning { RoundsTellOfTheirBeginning }
{}

/// Of each notice that `deliver_all` posts the event stands, from the moment at which it begins on, in all that a stop
/// may leave: none tells of what a stop takes back.
///
/// Source: own rule.
pub fn notices_tell_of_what_stands<S: Site, C: Courier>()
    ensures { NoticesTellOfWhatStands (telling S.tells C.tells) S.state }
{}
