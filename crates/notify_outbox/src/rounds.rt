//! The deliveries of a round: one for each live subscription, in the order of their numbers.
ghost use Rattle.std.specs.Prelude.{◌≡◌, ◌<◌, ℕ, Err, List, Some, false, length, slice_get};
ghost use Rattle.executor.specs.Managed.{IsReady, Keeps};
ghost use Rattle.lcm_events.specs.declared.events.Event.{Event};
ghost use Rattle.notify_outbox.specs.Dispatches.{Dispatch};
ghost use Rattle.notify_outbox.specs.Lent.{lent, point, telling};
ghost use Rattle.notify_outbox.specs.Rounds.{DeliversAll, EndsRound, RoundEnd, counted, live_numbers};
ghost use Rattle.site_traits.specs.Counts.{OnlyDiskFails};

use crate::delivering::deliver;
use crate::faults::{Delivery, DeliveryFault};
use executor::{Manager, works_add_up};
use site_traits::{Courier, Site};
use std::alloc::Global;
use vnfm_base::Moment;

/// How the deliveries of a round ended.
///
/// Source: own rule.
#[derive(Clone, Copy, PartialEq, Eq)]
pub struct Deliveries {
    /// How many notices were taken.
    pub delivered: u64,
    /// How many were posted and not taken.
    pub not_taken: u64,
}

impl Deliveries {
    /// Counts how one delivery more ended, as far as a count goes.
    fn count(&mut self, done: Delivery)
        ensures { self.new ≡ counted done self.old }
    {
        match done {
            Delivery::Idle => {}
            Delivery::Delivered => self.delivered = self.delivered.saturating_add(1),
            Delivery::NotTaken => self.not_taken = self.not_taken.saturating_add(1),
        }
    }
}

/// Makes one delivery for each subscription that is live, in the order of their numbers.
///
/// State: needs a manager that isn't closed and whose file has its history.
/// Refusals: those of `deliver`. The first ends the round, and the deliveries before it stand. After `Disk` the manager
/// is closed: load the journal again.
/// Source: own rule over SOL 003 5.4.20 (Notification endpoint).
pub fn deliver_all<S: Site, C: Courier>(
    alloc: Global,
    manager: &mut Manager<S>,
    site: &mut S,
    courier: &mut C,
    now: Moment,
) -> Result<Deliveries, DeliveryFault>
    requires ready { (H : List Event) × IsReady S.tells manager.old H (S.state site.old) }
    ensures delivers { (H : List Event) → IsReady S.tells manager.old H (S.state site.old)
        → (ps : List Dispatch) × (end : RoundEnd)
        × DeliversAll (telling S.tells C.tells) (point manager.old.ledger.manager manager.old.ledger.saved now H) ps end
        manager.new
        (lent (S.state site.old) (S.counts site.old) (C.state courier.old) (C.counts courier.old))
        (lent (S.state site.new) (S.counts site.new) (C.state courier.new) (C.counts courier.new))
        × EndsRound result ps end }
    ensures disk { OnlyDiskFails (result ≡ Err DeliveryFault.Disk) (S.counts site.old) (S.counts site.new) }
{
    works_add_up::<S>();
    let mut made = Deliveries {
        delivered: 0,
        not_taken: 0,
    };
    let count = live(manager);
    'deliveries: for k in 0..count {
        let subscription = number_at(manager, k);
        match deliver(alloc, manager, site, courier, now, subscription) {
            Ok(done) => made.count(done),
            Err(fault) => return Err(fault),
        }
    }
    Ok(made)
}

/// How many subscriptions are live.
fn live<S: Site>(manager: &Manager<S>) -> usize
    requires usable { manager.now.ledger.closed ≡ false }
    ensures { (H : List Event) → Keeps manager.now H → result ≡ length (live_numbers H) }
{
    manager.instances().subscriptions().len()
}

/// The number of the live subscription at this place of their order, from 0.
fn number_at<S: Site>(manager: &Manager<S>, k: usize) -> u64
    requires usable { manager.now.ledger.closed ≡ false }
    requires within { (H : List Event) × Keeps manager.now H × (k < length (live_numbers H)) }
    ensures { (H : List Event) → Keeps manager.now H → slice_get (live_numbers H) k ≡ Some result }
{
    manager.instances().subscriptions()[k].number
}
