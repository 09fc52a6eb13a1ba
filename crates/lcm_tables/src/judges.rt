//! Whether an event may follow the history that the tables stand for, by the tables alone.

ghost use Rattle.std.specs.Prelude.{Option, Some, List, ◌≡◌, ◌+◌, ◌<◌, ◌↔◌, IfOk, IsTrue, false, is_some, length, true};
ghost use Rattle.std.specs.Prelude.{ℕ};
ghost use Rattle.instance_table.specs.Rows.{instance};
ghost use Rattle.lcm_events.specs.declared.events.EventKind.TheVariants.{Created, Deleted, Onboarded, Posted};
ghost use Rattle.lcm_events.specs.declared.events.EventKind.TheVariants.{Subscribed, Unsubscribed};
ghost use Rattle.lcm_events.specs.declared.events.PostOutcome.{PostOutcome};
ghost use Rattle.lcm_model.specs.Instances.{is_instantiated};
ghost use Rattle.lcm_model.specs.Lives.{descriptor_named, is_live, is_subscribed};
ghost use Rattle.lcm_model.specs.Notices.{is_small_filter};
ghost use Rattle.lcm_model.specs.Operations.{occurrence_of, ongoing};
ghost use Rattle.lcm_model.specs.Refusals.{delete_refusal};
ghost use Rattle.lcm_model.specs.Words.{first};
ghost use Rattle.lcm_model.specs.Work.{window};
ghost use Rattle.lcm_tables.specs.Tables.{Judges, Says};

use crate::tables::Tables;
use instance_table::{InstanceRow, rows_have_holdings};
use lcm_events::{EventKind, Filter, Role, Vnfd};
use lcm_model::{MAX_DESCRIPTORS, MAX_INSTANCES, MAX_SUBSCRIPTIONS, Refusal, is_valid};
use std::alloc::{AllocError, Global};
use vnfm_base::{Kind, Name};

/// Values of one list of a filter.
const MAX_VALUES: usize = 64;

/// Whether no list of a filter has more values than it may.
fn is_small(filter: &Filter) -> bool
    ensures { result ≡ is_small_filter filter.now }
{
    filter.vnfds.len() <= MAX_VALUES
        && filter.instances.len() <= MAX_VALUES
        && filter.names.len() <= MAX_VALUES
        && filter.notices.len() <= MAX_VALUES
        && filter.operations.len() <= MAX_VALUES
        && filter.states.len() <= MAX_VALUES
}

/// Attempts of an occurrence that may be open at one time.
///
/// Source: own rule.
pub const WINDOW: usize = 4;

/// That the window is the model's. It does nothing, and its contract is the law.
///
/// Source: own rule.
pub fn window_is_that_of_histories()
    ensures { WINDOW ≡ window }
{}

/// Whether something of this number may be made: it is the next one, what it needs is there, and there is room.
fn may_be_made(made: u64, number: u64, ready: bool, live: u64, limit: u64) -> bool
    ensures { IsTrue result ↔ (number ≡ made + 1) × (ready ≡ true) × (live < limit) }
{
    made < number && number - made == 1 && ready && live < limit
}

impl Tables {
    /// Whether a descriptor of this identifier was onboarded.
    fn has_vnfd(&self, id: &Name) -> bool
        ensures { Says (λ H. result ≡ is_some (descriptor_named H id.now)) self.now }
    {
        self.instances.vnfd(id).is_some()
    }

    /// Whether the instance of this number is live.
    fn has_instance(&self, instance: u64) -> bool
        ensures { Says (λ H. result ≡ is_live H instance) self.now }
    {
        self.instances.instance(instance).is_some()
    }

    /// Whether the instance of this number is live and NOT_INSTANTIATED.
    fn is_idle(&self, instance: u64) -> bool
        ensures { Says (λ H. IsTrue result ↔ (is_live H instance ≡ true) × (is_instantiated H instance ≡ false))
            self.now }
    {
        rows_have_holdings();
        match self.instances.instance(instance) {
            Some(row) => !row.holding.instantiated,
            None => false,
        }
    }

    /// Whether an operation of the instance goes on.
    pub(crate) fn is_busy(&self, instance: u64) -> bool
        ensures { Says (λ H. result ≡ is_some (first (ongoing H instance))) self.now }
    {
        self.occurrences.ongoing(instance).is_some()
    }

    /// Whether the subscription of this number is live.
    fn has_subscription(&self, subscription: u64) -> bool
        ensures { Says (λ H. result ≡ is_subscribed H subscription) self.now }
    {
        self.instances.subscription(subscription).is_some()
    }

    /// Whether a descriptor may be onboarded: it is valid, new, and there is room.
    ///
    /// Source: own rule.
    pub fn may_onboard(&self, vnfd: &Vnfd) -> bool
        ensures judged { Judges (Onboarded vnfd.now) result self.now }
    {
        let valid = is_valid(vnfd);
        let known = self.has_vnfd(&vnfd.descriptor_id);
        let onboarded = self.instances.descriptors();
        valid && !known && onboarded < MAX_DESCRIPTORS
    }

    /// Whether an instance of this number and this descriptor may be created: the number is the next, the descriptor
    /// was onboarded, and there is room.
    ///
    /// Source: SOL 003 5.4.2 (VNF instances); the limit is an own rule.
    pub fn may_create(&self, instance: u64, vnfd: &Name) -> bool
        ensures judged { (name text : Option (List ℕ)) → Judges (Created instance vnfd.now name text) result self.now }
    {
        let made = self.instances.made(Kind::Instance);
        let known = self.has_vnfd(vnfd);
        let live = self.instances.live(Kind::Instance);
        may_be_made(made, instance, known, live, MAX_INSTANCES)
    }

    /// Whether an instance may be deleted: it is live, NOT_INSTANTIATED, and none of its operations goes on.
    ///
    /// Source: SOL 003 5.4.3 (Individual VNF instance).
    pub fn may_delete(&self, instance: u64) -> bool
        ensures judged { Judges (Deleted instance) result self.now }
    {
        let idle = self.is_idle(instance);
        let busy = self.is_busy(instance);
        idle && !busy
    }

    /// Why the deletion of the live instance of this row is refused, where it is: it is INSTANTIATED, or one of its
    /// operations goes on, in this order.
    ///
    /// Source: SOL 003 5.4.3.3.5 (DELETE of an individual VNF instance).
    pub fn delete_refusal(&self, row: &InstanceRow) -> Option<Refusal>
        ensures { Says (λ H. instance H row.now.number ≡ Some row.now → result ≡ delete_refusal H row.now.number)
            self.now }
    {
        rows_have_holdings();
        let busy = self.is_busy(row.number);
        if row.holding.instantiated {
            Some(Refusal::Instantiated)
        } else if busy {
            Some(Refusal::Ongoing)
        } else {
            None
        }
    }

    /// Whether a subscription of this number may be made: the number is the next, its role has room, and its filter is
    /// small.
    ///
    /// Source: SOL 003 5.4.18 (Subscriptions); the limits are own rules.
    pub fn may_subscribe(&self, subscription: u64, role: Role, filter: &Filter) -> bool
        ensures judged { (callback : List ℕ) → Judges (Subscribed subscription role callback filter.now) result
            self.now }
    {
        let made = self.instances.made(Kind::Subscription);
        let small = is_small(filter);
        let live = self.instances.live_of(role);
        may_be_made(made, subscription, small, live, MAX_SUBSCRIPTIONS)
    }

    /// Whether the post of the notice at this place may be recorded: the subscription is live, and the place is that of
    /// the first notice that waits for it.
    ///
    /// Source: own rule over SOL 003 5.4.20 (Notification endpoint).
    pub fn may_post(&self, subscription: u64, place: u64) -> bool
        ensures judged { (outcome : PostOutcome) → Judges (Posted subscription place outcome) result self.now }
    {
        self.notices.may_post(subscription, place)
    }

    /// Whether a subscription may be ended: it is live.
    ///
    /// Source: SOL 003 5.4.19 (Individual subscription).
    pub fn may_unsubscribe(&self, subscription: u64) -> bool
        ensures judged { Judges (Unsubscribed subscription) result self.now }
    {
        self.has_subscription(subscription)
    }

    /// Whether an event that is about an occurrence may follow.
    pub(crate) fn may_follow_work(
        &self,
        alloc: Global,
        kind: &EventKind,
    ) -> Result<bool, AllocError>
        requires { is_some (occurrence_of kind.now) ≡ true }
        ensures judged { IfOk result (λ yes. Judges kind.now yes self.now) }
    {
        match kind {
            EventKind::GrantTried { occ, answer } => Ok(self.occurrences.may_try(*occ, answer)),
            EventKind::Granted {
                occ,
                grant,
                places,
                spots,
            } => self
                .occurrences
                .may_grant(alloc, *occ, grant, places.as_slice(), spots.as_slice()),
            EventKind::Denied { occ } => Ok(self.occurrences.may_deny(*occ)),
            EventKind::Intent(tag) => Ok(self.occurrences.may_begin(WINDOW, tag)),
            EventKind::CallFailed(tag) => Ok(self.occurrences.may_fail_call(tag)),
            EventKind::Settled { tag, .. } => Ok(self.occurrences.may_settle(tag)),
            EventKind::Moved { occ, to } => Ok(self.occurrences.may_move(*occ, *to)),
            EventKind::CancelAsked { occ, .. } => Ok(self.occurrences.may_cancel(*occ)),
            _ => unreachable!(),
        }
    }
}
