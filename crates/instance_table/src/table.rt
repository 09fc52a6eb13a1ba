//! The table: a row for each descriptor, each live instance and each live subscription, in the order in which they
//! came.

ghost use Rattle.std.specs.Prelude.{◌≡◌, ◌-◌, [], None, true, find, ◌==◌, length, option_copied, vec_len, vec_capacity};
ghost use Rattle.std.specs.Prelude.{filter};
ghost use Rattle.lcm_events.specs.Same.{same_name};
ghost use Rattle.instance_table.specs.Rows.{Rows, StandsFor};
ghost use Rattle.instance_table.specs.Steps.{Rises};
ghost use Rattle.instance_table.specs.Table.{CountsDescriptors, CountsLive, CountsMade, FindsAmong, FindsInstance};
ghost use Rattle.instance_table.specs.Table.{FindsSubscription, FindsVnfd, ListsInstances, ListsSubscriptions};
ghost use Rattle.instance_table.specs.Table.{Reserved, Shown, is_counted, CountsEvents, CountsLiveOf, is_role_of};
ghost use Rattle.instance_table.specs.Table.{vnfd_named};

use crate::going::{Going, Placing};
use crate::instances::instance_in;
use crate::rows::{InstanceRow, SubscriptionRow};
use crate::subscriptions::{count_of, subscription_in};
use held_items::Editor;
use lcm_events::{Role, Vnfd};
use std::alloc::Global;
use std::marker::Model;
use vnfm_base::{Kind, Name};

/// The table of descriptors, live instances and live subscriptions, and of the operations that go on.
///
/// A contract sees its rows, and beside them what is reserved for an event.

pub struct InstanceTable {
    pub(crate) descriptors: Vec<Vnfd>,
    pub(crate) instances: Vec<InstanceRow>,
    pub(crate) subscriptions: Vec<SubscriptionRow>,
    pub(crate) going: Vec<Going>,
    pub(crate) instances_made: u64,
    pub(crate) subscriptions_made: u64,
    pub(crate) events: u64,
    pub(crate) descriptor: Option<Vnfd>,
    pub(crate) instance: Option<InstanceRow>,
    pub(crate) subscription: Option<SubscriptionRow>,
    pub(crate) operation: Option<Going>,
    pub(crate) placing: Option<Placing>,
    pub(crate) editor: Editor,
}

impl Drop for InstanceTable {
    // Written out, so that the proof of a caller calls it and doesn't take the table apart at each of its ends.
    fn drop(self) {
        let InstanceTable {
            descriptors: _,
            instances: _,
            subscriptions: _,
            going: _,
            instances_made: _,
            subscriptions_made: _,
            events: _,
            descriptor: _,
            instance: _,
            subscription: _,
            operation: _,
            placing: _,
            editor: _,
        } = self;
    }
}

impl Model for InstanceTable {
    ghost use Rattle.std.specs.Prelude.{◌-◌, vec_len, vec_capacity};
    ghost use Rattle.instance_table.specs.Rows.{Rows};
    ghost use Rattle.instance_table.specs.Table.{Reserved, Shown};

    ghost Value = { Shown };

    ghost view = { λ t. record {
      rows = record {
        descriptors = t.descriptors.items;
        instances = t.instances.items;
        subscriptions = t.subscriptions.items;
        going = t.going.items;
        instances_made = t.instances_made;
        subscriptions_made = t.subscriptions_made;
        events = t.events;
      };
      reserved =
          record {
            descriptor = t.descriptor;
            instance = t.instance;
            subscription = t.subscription;
            operation =
                t.operation;
            placing = t.placing;
            room = t.editor;
            descriptors =
                vec_capacity t.descriptors - vec_len t.descriptors;
            instances = vec_capacity t.instances - vec_len t.instances;
            subscriptions = vec_capacity t.subscriptions - vec_len t.subscriptions;
            going =
                vec_capacity t.going - vec_len t.going;
          };
    } };
}

/// The first descriptor of this identifier.
fn vnfd_in<'a>(descriptors: &'a [Vnfd], id: &Name) -> Option<&'a Vnfd>
    ensures { option_copied result ≡ find (λ d. same_name d.descriptor_id id.now) descriptors.now }
{
    for vnfd in descriptors {
        if vnfd.descriptor_id == *id {
            return Some(vnfd);
        }
    }
    None
}

impl InstanceTable {
    /// A table with no row, which takes no memory until something is reserved.
    pub fn new(alloc: Global) -> Self
        ensures rows { StandsFor result.rows [] }
        ensures descriptor { result.reserved.descriptor ≡ None }
        ensures instance { result.reserved.instance ≡ None }
        ensures subscription { result.reserved.subscription ≡ None }
        ensures operation { result.reserved.operation ≡ None }
        ensures placing { result.reserved.placing ≡ None }
    {
        InstanceTable {
            descriptors: Vec::new(alloc),
            instances: Vec::new(alloc),
            subscriptions: Vec::new(alloc),
            going: Vec::new(alloc),
            instances_made: 0,
            subscriptions_made: 0,
            events: 0,
            descriptor: None,
            instance: None,
            subscription: None,
            operation: None,
            placing: None,
            editor: Editor::new(alloc),
        }
    }

    /// The descriptor of this identifier; none exactly where the history has none.
    ///
    /// Source: SOL 003 5.5.2.2 (VnfInstance, vnfdId).
    pub fn vnfd(&self, id: &Name) -> Option<&Vnfd>
        ensures finds { FindsVnfd id.now (option_copied result) self.now.rows }
        ensures named { option_copied result ≡ vnfd_named self.now.rows id.now }
    {
        self.vnfd_named(id)
    }

    /// The first descriptor of this identifier.
    pub(crate) fn vnfd_named(&self, id: &Name) -> Option<&Vnfd>
        ensures { option_copied result ≡ find (λ d. same_name d.descriptor_id id.now) self.now.rows.descriptors }
    {
        vnfd_in(self.descriptors.as_slice(), id)
    }

    /// The row of the instance of this number; none exactly where there is no live instance of that number.
    ///
    /// Source: SOL 003 5.4.3 (Individual VNF instance).
    pub fn instance(&self, n: u64) -> Option<&InstanceRow>
        ensures finds { FindsInstance n (option_copied result) self.now.rows }
        ensures among { FindsAmong n (option_copied result) self.now.rows }
    {
        self.instance_numbered(n)
    }

    /// The row of the instance of this number, where their numbers rise.
    pub(crate) fn instance_numbered(&self, n: u64) -> Option<&InstanceRow>
        ensures { Rises (λ r. r.number) self.now.rows.instances
            → option_copied result ≡ find (λ r. r.number == n) self.now.rows.instances }
    {
        instance_in(self.instances.as_slice(), n)
    }

    /// The rows of the live instances, in the order of their numbers.
    ///
    /// Source: SOL 003 5.4.2 (VNF instances).
    pub fn instances(&self) -> &[InstanceRow]
        ensures rows { result.now ≡ self.now.rows.instances }
        ensures lists { ListsInstances result.now self.now.rows }
    {
        self.instances.as_slice()
    }

    /// The row of the subscription of this number; none exactly where there is no live subscription of that number.
    ///
    /// Source: SOL 003 5.4.19 (Individual subscription).
    pub fn subscription(&self, n: u64) -> Option<&SubscriptionRow>
        ensures finds { FindsSubscription n (option_copied result) self.now.rows }
    {
        self.subscription_numbered(n)
    }

    /// The row of the subscription of this number, where their numbers rise.
    fn subscription_numbered(&self, n: u64) -> Option<&SubscriptionRow>
        ensures { Rises (λ r. r.number) self.now.rows.subscriptions
            → option_copied result ≡ find (λ r. r.number == n) self.now.rows.subscriptions }
    {
        subscription_in(self.subscriptions.as_slice(), n)
    }

    /// The rows of the live subscriptions of both roles, in the order of their numbers.
    ///
    /// Source: SOL 003 5.4.18 (Subscriptions).
    pub fn subscriptions(&self) -> &[SubscriptionRow]
        ensures rows { result.now ≡ self.now.rows.subscriptions }
        ensures lists { ListsSubscriptions result.now self.now.rows }
    {
        self.subscriptions.as_slice()
    }

    /// How many instances or subscriptions were ever made.
    ///
    /// Condition: the kind is instance or subscription.
    /// Source: own rule.
    pub fn made(&self, kind: Kind) -> u64
        requires { is_counted kind ≡ true }
        ensures made { CountsMade kind result self.now.rows }
    {
        match kind {
            Kind::Instance => self.instances_made,
            Kind::Subscription => self.subscriptions_made,
            Kind::Occurrence | Kind::Notice => 0,
        }
    }

    /// How many instances or subscriptions are live.
    ///
    /// Condition: the kind is instance or subscription.
    /// Source: own rule.
    pub fn live(&self, kind: Kind) -> u64
        requires { is_counted kind ≡ true }
        ensures live { CountsLive kind result self.now.rows }
    {
        match kind {
            Kind::Instance => self.instances.len() as u64,
            Kind::Subscription => self.subscriptions.len() as u64,
            Kind::Occurrence | Kind::Notice => 0,
        }
    }

    /// How many subscriptions of a role are live.
    ///
    /// Source: SOL 003 5.4.18 (Subscriptions).
    pub fn live_of(&self, role: Role) -> u64
        ensures live { CountsLiveOf role result self.now.rows }
    {
        self.count_of(role)
    }

    /// How many rows of subscriptions are a role's.
    fn count_of(&self, role: Role) -> u64
        ensures { result ≡ length (filter (is_role_of role) self.now.rows.subscriptions) }
    {
        count_of(self.subscriptions.as_slice(), role)
    }

    /// How many events the table has followed.
    ///
    /// Source: own rule.
    pub fn events(&self) -> u64
        ensures events { CountsEvents result self.now.rows }
    {
        self.events
    }

    /// How many descriptors were onboarded.
    ///
    /// Source: own rule.
    pub fn descriptors(&self) -> u64
        ensures descriptors { CountsDescriptors result self.now.rows }
    {
        self.descriptors.len() as u64
    }
}
