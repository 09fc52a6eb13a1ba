//! A delivery: the first notice that waits for a subscription is posted, once.
ghost use Rattle.std.specs.Prelude.{◌≡◌, ℕ, Err, List, Some};
ghost use Rattle.executor.specs.Managed.{IsReady};
ghost use Rattle.lcm_events.specs.declared.events.Event.{Event};
ghost use Rattle.notice_table.specs.Queues.{first_waiting};
ghost use Rattle.notify_outbox.specs.Delivering.{Course, Delivers};
ghost use Rattle.notify_outbox.specs.Lent.{lent, point, telling};
ghost use Rattle.site_traits.specs.Counts.{OnlyDiskFails};

use crate::faults::{Delivery, DeliveryFault};
use crate::posting::{delivery_of, outcome_of, post, posted, prepare, record};
use crate::reading::read_body;
use executor::{Manager, works_add_up};
use site_traits::{Courier, Site};
use std::alloc::Global;
use vnfm_base::Moment;

/// Posts the first notice that waits for a subscription to its callback, and records what became of it: a receiver that
/// answers 204 took it. Where none waits, and where the subscription isn't live, nothing is done.
///
/// State: needs a manager that isn't closed and whose file has its history.
/// Refusals: `BadRecord(n)`, which never comes where the site tells its content; `Memory`; `Full {end, more}` (bytes),
/// exactly where the spelling of the event that records the post and the file's end say so; after these nothing was
/// posted or recorded. `Disk`, after which the manager is closed: load the journal again. Where the disk failed before
/// the post nothing was posted; where it failed behind it, the notice may be posted again once the journal is loaded.
///
/// All memory is taken before the post. At each moment a stop leaves a history that begins with that at the start, so
/// that every image has the event that the notice tells of before it is posted.
/// Source: SOL 003 5.4.20 (Notification endpoint).
pub fn deliver<S: Site, C: Courier>(
    alloc: Global,
    manager: &mut Manager<S>,
    site: &mut S,
    courier: &mut C,
    now: Moment,
    subscription: u64,
) -> Result<Delivery, DeliveryFault>
    requires ready { (H : List Event) × IsReady S.tells manager.old H (S.state site.old) }
    ensures delivers { (H : List Event) → IsReady S.tells manager.old H (S.state site.old)
        → (c : Course) × Delivers (telling S.tells C.tells)
        (point manager.old.ledger.manager manager.old.ledger.saved now H) subscription c result manager.new
        (lent (S.state site.old) (S.counts site.old) (C.state courier.old) (C.counts courier.old))
        (lent (S.state site.new) (S.counts site.new) (C.state courier.new) (C.counts courier.new)) }
    ensures disk { OnlyDiskFails (result ≡ Err DeliveryFault.Disk) (S.counts site.old) (S.counts site.new) }
{
    works_add_up::<S>();
    match manager.first_notice(subscription) {
        Some(place) => deliver_at(alloc, manager, site, courier, now, subscription, place),
        None => Ok(Delivery::Idle),
    }
}

/// The same, of the notice at this place.
fn deliver_at<S: Site, C: Courier>(
    alloc: Global,
    manager: &mut Manager<S>,
    site: &mut S,
    courier: &mut C,
    now: Moment,
    subscription: u64,
    place: u64,
) -> Result<Delivery, DeliveryFault>
    requires waits { (H : List Event) × IsReady S.tells manager.old H (S.state site.old)
        × (first_waiting manager.old.ledger.manager H subscription ≡ Some place) }
    ensures delivers { (H : List Event) → IsReady S.tells manager.old H (S.state site.old)
        → first_waiting manager.old.ledger.manager H subscription ≡ Some place
        → (c : Course) × Delivers (telling S.tells C.tells)
        (point manager.old.ledger.manager manager.old.ledger.saved now H) subscription c result manager.new
        (lent (S.state site.old) (S.counts site.old) (C.state courier.old) (C.counts courier.old))
        (lent (S.state site.new) (S.counts site.new) (C.state courier.new) (C.counts courier.new)) }
    ensures disk { OnlyDiskFails (result ≡ Err DeliveryFault.Disk) (S.counts site.old) (S.counts site.new) }
{
    works_add_up::<S>();
    let body = read_body(alloc, manager, site, subscription, place)?;
    prepare(alloc, manager, site, now, subscription, place)?;
    let answer = post(manager, courier, subscription, &body);
    let outcome = outcome_of(answer);
    let event = posted(now, subscription, place, outcome);
    record(manager, site, &event)?;
    Ok(delivery_of(outcome))
}
