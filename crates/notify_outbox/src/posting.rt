//! A post: what it needs to be recorded is made sure of before it is made.
ghost use Rattle.std.specs.Prelude.{◌≡◌, ◌≢◌, ◌↔◌, ℕ, Err, IsTrue, List, OnOk, Some, false, true};
ghost use Rattle.executor.specs.Managed.{IsReady, Keeps, KeepsOn, MayRecord};
ghost use Rattle.executor.specs.Room.{HasRoomFor};
ghost use Rattle.executor.specs.Work.{Works};
ghost use Rattle.journal_core.specs.Room as journal;
ghost use Rattle.journal_records.specs.declared.limits.TheConstants.{MAX_FILE};
ghost use Rattle.lcm_events.specs.declared.events.Event.{Event};
ghost use Rattle.lcm_events.specs.declared.events.PostOutcome.{PostOutcome};
ghost use Rattle.lcm_model.specs.Lives.{is_subscribed};
ghost use Rattle.lcm_tables.specs.Tables.{HasRoom};
ghost use Rattle.notice_table.specs.Queues.{first_waiting};
ghost use Rattle.notify_outbox.specs.Delivering.{delivery_of};
ghost use Rattle.notify_outbox.specs.Dispatches.{callback, outcome_of, posted_event};
ghost use Rattle.notify_outbox.specs.Preparing.{TellsRoomBefore, TellsRoomOf, is_post, recorded_post};
ghost use Rattle.site_traits.specs.Counts.{OnlyDiskFails};
ghost use Rattle.site_traits.specs.Peers.{PostCause, Posts};

use crate::faults::{Delivery, DeliveryFault};
use executor::{Manager, WorkFault};
use journal_core::{MAX_FILE, records_add_up};
use lcm_events::{Event, EventKind, PostOutcome};
use site_traits::{Courier, PostAnswer, Site};
use std::alloc::Global;
use vnfm_base::{Bytes, Moment};

/// The status by which a receiver takes a notice.
const TAKEN: u16 = 204;

/// The event that a notice was posted.
pub fn posted(now: Moment, subscription: u64, place: u64, outcome: PostOutcome) -> Event
    ensures { result ≡ posted_event now subscription place outcome }
{
    let kind = EventKind::Posted {
        subscription,
        place,
        outcome,
    };
    Event { moment: now, kind }
}

/// What becomes of a notice, by the answer to its post.
///
/// Source: SOL 003 5.4.20 (Notification endpoint).
pub fn outcome_of(answer: PostAnswer) -> PostOutcome
    ensures { result ≡ outcome_of answer }
{
    match answer {
        PostAnswer::Status(status) => {
            if status == TAKEN {
                PostOutcome::Delivered
            } else {
                PostOutcome::NotTaken
            }
        }
        PostAnswer::Failed => PostOutcome::NotTaken,
    }
}

/// How a delivery ended, by what became of the notice.
pub fn delivery_of(outcome: PostOutcome) -> Delivery
    ensures { result ≡ delivery_of outcome }
{
    match outcome {
        PostOutcome::Delivered => Delivery::Delivered,
        PostOutcome::NotTaken => Delivery::NotTaken,
    }
}

/// Makes sure that the post of a notice can be recorded, whatever it is answered: what that needs of memory is
/// reserved, and the journal has room for it.
///
/// Conditions: the manager isn't closed, and its file has its history; the place is that of the first notice that waits
/// for the subscription.
/// Refusals, in this order: `Memory`; `Full {end, more}` (bytes), exactly where the spelling of the event and the
/// file's end say so. Nothing is recorded.
pub fn prepare<S: Site>(
    alloc: Global,
    manager: &mut Manager<S>,
    site: &mut S,
    now: Moment,
    subscription: u64,
    place: u64,
) -> Result<(), DeliveryFault>
    requires waits { (H : List Event) × IsReady S.tells manager.old H (S.state site.old)
        × (first_waiting manager.old.ledger.manager H subscription ≡ Some place) }
    ensures ledger { manager.new.ledger ≡ manager.old.ledger }
    ensures keeps { KeepsOn manager.old manager.new }
    ensures site { site.new ≡ site.old }
    ensures reserved { OnOk result ((how : PostOutcome)
        → HasRoom (posted_event now subscription place how) manager.new.tables) }
    ensures room { (H : List Event) → IsReady S.tells manager.old H (S.state site.old)
        → first_waiting manager.old.ledger.manager H subscription ≡ Some place
        → TellsRoomBefore manager.old.ledger.saved now H subscription place result }
    ensures disk { result ≢ Err DeliveryFault.Disk }
{
    records_add_up();
    let event = posted(now, subscription, place, PostOutcome::Delivered);
    manager.reserve_for(alloc, &event)?;
    has_room(manager, site, &event)
}

/// Whether the journal has room for the event that a notice was posted. A journal that is to end at the front of its
/// file never has: by that refusal, which changes nothing, it says where it ends and how long the event is.
fn has_room<S: Site>(
    manager: &mut Manager<S>,
    site: &mut S,
    event: &Event,
) -> Result<(), DeliveryFault>
    requires may { (H : List Event) × IsReady S.tells manager.old H (S.state site.old)
        × MayRecord manager.old.ledger.manager H event.now }
    requires reserved { HasRoom event.now manager.old.tables }
    requires kind { is_post event.now.kind ≡ true }
    ensures manager { manager.new ≡ manager.old }
    ensures site { site.new ≡ site.old }
    ensures room { (H : List Event) → Keeps manager.old H
        → TellsRoomOf manager.old.ledger.saved H event.now result }
    ensures disk { result ≢ Err DeliveryFault.Disk }
{
    records_add_up();
    match manager.put_unsettled(site, event, 0) {
        Err(WorkFault::Full { end, more }) => {
            if fits(end, more) {
                Ok(())
            } else {
                Err(DeliveryFault::Full { end, more })
            }
        }
        Err(WorkFault::TooLong(_)) => unreachable!(),
        Err(WorkFault::Memory) => unreachable!(),
        Err(WorkFault::Disk) => unreachable!(),
        Ok(()) => unreachable!(),
    }
}

/// Whether a record of `more` bytes behind the closed gate at `end`, with the gate behind it, is within the file's
/// limit.
fn fits(end: u64, more: u32) -> bool
    ensures { IsTrue result ↔ journal.HasRoom end more MAX_FILE }
{
    end <= MAX_FILE - 10 && u64::from(more) <= MAX_FILE - 10 - end
}

/// Posts the body of a notice to the callback of its subscription.
///
/// Source: SOL 003 5.4.20 (Notification endpoint).
pub fn post<S: Site, C: Courier>(
    manager: &Manager<S>,
    courier: &mut C,
    subscription: u64,
    body: &Bytes,
) -> PostAnswer
    requires usable { manager.now.ledger.closed ≡ false }
    requires live { (H : List Event) × Keeps manager.now H × (is_subscribed H subscription ≡ true) }
    ensures posts { (H : List Event) → Keeps manager.now H → is_subscribed H subscription ≡ true
        → (uri : List ℕ) × (callback H subscription ≡ Some uri)
        × (C.tells → Posts uri body.now result (C.state courier.old) (C.state courier.new)) }
    ensures cause { PostCause result (C.counts courier.old) (C.counts courier.new) }
{
    let Some(row) = manager.instances().subscription(subscription) else {
        unreachable!()
    };
    courier.post(&row.callback, body.as_slice())
}

/// Records what became of a notice that was posted. No memory is taken, and there is room for it.
pub fn record<S: Site>(
    manager: &mut Manager<S>,
    site: &mut S,
    event: &Event,
) -> Result<(), DeliveryFault>
    requires may { (H : List Event) × IsReady S.tells manager.old H (S.state site.old)
        × MayRecord manager.old.ledger.manager H event.now
        × HasRoomFor MAX_FILE manager.old.ledger.saved H event.now }
    requires reserved { HasRoom event.now manager.old.tables }
    ensures works { (H : List Event) → IsReady S.tells manager.old H (S.state site.old)
        → MayRecord manager.old.ledger.manager H event.now
        → Works S.tells manager.old.ledger.manager H (recorded_post H event.now result) manager.new (S.state site.old)
        (S.state site.new) }
    ensures saved { manager.new.ledger.saved ≡ manager.old.ledger.saved }
    ensures only { (why : DeliveryFault) → result ≡ Err why → why ≡ DeliveryFault.Disk }
    ensures disk { OnlyDiskFails (result ≡ Err DeliveryFault.Disk) (S.counts site.old) (S.counts site.new) }
{
    match manager.put_unsettled(site, event, MAX_FILE) {
        Ok(()) => Ok(()),
        Err(WorkFault::Disk) => Err(DeliveryFault::Disk),
        Err(WorkFault::TooLong(_)) => unreachable!(),
        Err(WorkFault::Memory) => unreachable!(),
        Err(WorkFault::Full { .. }) => unreachable!(),
    }
}
