//! How the table follows an event, from what is reserved for it.

ghost use Rattle.std.specs.Prelude.{◌≡◌, ◌<◌, [], ◌++◌, ◌∷◌, Some, false, find, ◌==◌, length, map, IfSome};
ghost use Rattle.lcm_events.specs.declared.descriptor.Vnfd.{Vnfd};
ghost use Rattle.lcm_events.specs.declared.events.EventKind.TheVariants.{Settled};
ghost use Rattle.instance_table.specs.declared.going.Going.{Going};
ghost use Rattle.instance_table.specs.declared.going.Placing.{Placing};
ghost use Rattle.instance_table.specs.declared.rows.InstanceRow.{InstanceRow};
ghost use Rattle.instance_table.specs.declared.rows.SubscriptionRow.{SubscriptionRow};
ghost use Rattle.instance_table.specs.Steps.{AreOrdered, HasItemRoom, Rises, after_work, asked, begun_at, changed};
ghost use Rattle.instance_table.specs.Steps.{end_of, ended, finished, items_about, work_done, worked, moved};
ghost use Rattle.instance_table.specs.Steps.{next_place, placed, posted, without_instance, without_operation};
ghost use Rattle.instance_table.specs.Steps.{without_subscription};
ghost use Rattle.instance_table.specs.Table.{Applies, HasRoom, IsKept, needs_room};

use crate::going::{Going, going_in, place_in, take_going};
use crate::instances::{ask_in, end_in, remove_instance, work_among};
use crate::subscriptions::{post_in, remove_subscription};
use crate::table::InstanceTable;
use crate::work::{Work, work_in};
use lcm_events::{Event, EventKind, OpState, Operation, Outcome, PostOutcome, Tag};
use lcm_model::ends;
use vnfm_base::Name;

/// The place behind this many events.
fn next_place(events: u64) -> u64
    ensures { result ≡ next_place events }
{
    events.saturating_add(1)
}

impl InstanceTable {
    /// Puts the reserved descriptor last.
    fn put_descriptor(&mut self)
        requires spare { 0 < self.old.reserved.descriptors }
        ensures rows { (d : Vnfd) → self.old.reserved.descriptor ≡ Some d
            → self.new.rows ≡ record self.old.rows { descriptors = self.old.rows.descriptors ++ d ∷ [] } }
    {
        if let Some(vnfd) = self.descriptor.take() {
            self.descriptors.push_reserved(vnfd);
        }
    }

    /// Puts the reserved instance last, which is the one of this number.
    fn put_instance(&mut self, number: u64)
        requires spare { 0 < self.old.reserved.instances }
        ensures rows { (r : InstanceRow) → self.old.reserved.instance ≡ Some r
            → self.new.rows ≡ record self.old.rows {
              instances = self.old.rows.instances ++ r ∷ [];
              instances_made =
                  number;
            } }
    {
        if let Some(row) = self.instance.take() {
            self.instances.push_reserved(row);
        }
        self.instances_made = number;
    }

    /// Puts the reserved subscription last, which is the one of this number.
    fn put_subscription(&mut self, number: u64)
        requires spare { 0 < self.old.reserved.subscriptions }
        ensures rows { (r : SubscriptionRow) → self.old.reserved.subscription ≡ Some r
            → self.new.rows ≡ record self.old.rows {
              subscriptions =
                  self.old.rows.subscriptions ++ begun_at (next_place self.old.rows.events) r ∷ [];
              subscriptions_made =
                  number;
            } }
    {
        if let Some(mut row) = self.subscription.take() {
            row.begin_at(next_place(self.events));
            self.subscriptions.push_reserved(row);
        }
        self.subscriptions_made = number;
    }

    /// Takes the instance of this number out.
    fn leave_instance(&mut self, number: u64)
        ensures rows { self.new.rows ≡ record self.old.rows {
          instances =
              without_instance number self.old.rows.instances;
        } }
        ensures reserved { IsKept self.old.reserved self.new.reserved }
    {
        remove_instance(&mut self.instances, number);
    }

    /// Takes the subscription of this number out.
    fn leave_subscription(&mut self, number: u64)
        ensures rows { self.new.rows ≡ record self.old.rows {
          subscriptions =
              without_subscription number self.old.rows.subscriptions;
        } }
        ensures reserved { IsKept self.old.reserved self.new.reserved }
    {
        remove_subscription(&mut self.subscriptions, number);
    }

    /// Lets the subscription of this number follow a post.
    fn post(&mut self, number: u64, place: u64, outcome: PostOutcome)
        ensures rows { Rises (λ r. r.number) self.old.rows.subscriptions
            → self.new.rows ≡ record self.old.rows {
              subscriptions =
                  map (posted number place outcome) self.old.rows.subscriptions;
            } }
        ensures reserved { self.new.reserved ≡ self.old.reserved }
    {
        post_in(&mut self.subscriptions, number, place, outcome);
    }

    /// Puts the reserved operation last among those that go on.
    fn put_operation(&mut self)
        requires spare { 0 < self.old.reserved.going }
        ensures rows { (g : Going) → self.old.reserved.operation ≡ Some g
            → self.new.rows ≡ record self.old.rows { going = self.old.rows.going ++ g ∷ [] } }
    {
        if let Some(going) = self.operation.take() {
            self.going.push_reserved(going);
        }
    }

    /// Lets the instance of an operation follow its ask.
    fn ask_instance(&mut self, operation: &Operation)
        ensures rows { Rises (λ r. r.number) self.old.rows.instances
            → self.new.rows ≡ record self.old.rows {
              instances =
                  map (asked operation.now.instance operation.now.changes) self.old.rows.instances;
            } }
        ensures reserved { self.new.reserved ≡ self.old.reserved }
    {
        ask_in(
            &mut self.instances,
            operation.instance,
            operation.changes.as_slice(),
        );
    }

    /// Lets the rows follow an ask.
    fn follow_ask(&mut self, operation: &Operation)
        requires spare { 0 < self.old.reserved.going }
        ensures rows { (g : Going) → self.old.reserved.operation ≡ Some g
            → Rises (λ r. r.number) self.old.rows.instances → self.new.rows
            ≡ record self.old.rows {
              instances = map (asked operation.now.instance operation.now.changes)
                  self.old.rows.instances;
              going = self.old.rows.going ++ g ∷ [];
            } }
    {
        self.ask_instance(operation);
        self.put_operation();
    }

    /// Lets the operation that goes on of this occurrence follow its grant, where the numbers rise.
    fn follow_grant(&mut self, occ: u64)
        ensures rows { (p : Placing) → self.old.reserved.placing ≡ Some p → Rises (λ g. g.occ) self.old.rows.going
            → self.new.rows ≡ record self.old.rows { going = map (placed occ p) self.old.rows.going } }
    {
        if let Some(placing) = self.placing.take() {
            place_in(&mut self.going, occ, placing);
        }
    }

    /// What an attempt that is done did.
    fn work_done(&self, tag: &Tag, name: Name) -> Option<Work>
        ensures { Rises (λ g. g.occ) self.now.rows.going → result ≡ work_done tag.now name self.now.rows }
    {
        match going_in(self.going.as_slice(), tag.occ) {
            Some(going) => work_in(going, tag, name),
            None => None,
        }
    }

    /// Lets the instance follow what was done to what stands of it.
    fn follow_work(&mut self, work: &Work)
        ensures rows { Rises (λ r. r.number) self.old.rows.instances
            → IfSome (find (λ r. r.number == work.now.instance) self.old.rows.instances)
            (HasItemRoom self.old.reserved.room) → self.new.rows
            ≡ record self.old.rows { instances = map (after_work work.now) self.old.rows.instances } }
    {
        work_among(&mut self.instances, &mut self.editor, work);
    }

    /// Lets the rows follow an attempt that is done.
    fn follow_done(&mut self, tag: &Tag, name: Name)
        requires room { AreOrdered self.old.rows → IfSome (items_about self.old.rows tag.now.occ)
            (λ ys. length ys < self.old.reserved.room) }
        ensures rows { AreOrdered self.old.rows → self.new.rows
            ≡ worked (work_done tag.now name self.old.rows) self.old.rows }
    {
        match self.work_done(tag, name) {
            Some(work) => self.follow_work(&work),
            None => {}
        }
    }

    /// Lets the rows follow the end of an attempt.
    fn follow_settled(&mut self, tag: &Tag, outcome: &Outcome)
        requires room { HasRoom (Settled tag.now outcome.now) self.old.rows self.old.reserved }
        ensures rows { AreOrdered self.old.rows → self.new.rows ≡ changed (Settled tag.now outcome.now) self.old.rows }
        ensures stays { needs_room (Settled tag.now outcome.now) ≡ false → IsKept self.old.reserved self.new.reserved }
    {
        match outcome {
            Outcome::Done(name) => self.follow_done(tag, *name),
            _ => {}
        }
    }

    /// Lets the instance of an operation follow its end.
    fn end_instance(&mut self, going: Going, to: OpState)
        ensures rows { Rises (λ r. r.number) self.old.rows.instances
            → self.new.rows ≡ record self.old.rows {
              instances =
                  map (ended going.instance (end_of to going) going.aim) self.old.rows.instances;
            } }
        ensures reserved { self.new.reserved ≡ self.old.reserved }
    {
        let end_effect = going.end(to);
        end_in(&mut self.instances, going.instance, end_effect, going.aim);
    }

    /// Takes the operation of this occurrence out of those that go on, where the numbers rise.
    fn leave_operation(&mut self, occ: u64) -> Option<Going>
        ensures found { Rises (λ g. g.occ) self.old.rows.going → result ≡ find (λ g. g.occ == occ) self.old.rows.going }
        ensures rows { Rises (λ g. g.occ) self.old.rows.going
            → self.new.rows ≡ record self.old.rows { going = without_operation occ self.old.rows.going } }
        ensures reserved { IsKept self.old.reserved self.new.reserved }
    {
        take_going(&mut self.going, occ)
    }

    /// Lets the rows follow the end of an operation.
    fn follow_end(&mut self, occ: u64, to: OpState)
        ensures rows { AreOrdered self.old.rows → self.new.rows
            ≡ finished occ to (find (λ g. g.occ == occ) self.old.rows.going) self.old.rows }
        ensures reserved { IsKept self.old.reserved self.new.reserved }
    {
        if let Some(going) = self.leave_operation(occ) {
            self.end_instance(going, to);
        }
    }

    /// Lets the rows follow a move.
    fn follow_move(&mut self, occ: u64, to: OpState)
        ensures rows { AreOrdered self.old.rows → self.new.rows ≡ moved occ to self.old.rows }
        ensures reserved { IsKept self.old.reserved self.new.reserved }
    {
        if ends(to) {
            self.follow_end(occ, to);
        }
    }

    /// Counts one more event.
    fn count_event(&mut self)
        ensures rows { self.new.rows ≡ record self.old.rows { events = next_place self.old.rows.events } }
        ensures reserved { self.new.reserved ≡ self.old.reserved }
    {
        self.events = next_place(self.events);
    }

    /// Lets the rows follow an event, which isn't counted yet.
    fn follow(&mut self, kind: &EventKind)
        requires room { HasRoom kind.now self.old.rows self.old.reserved }
        ensures rows { AreOrdered self.old.rows → self.new.rows ≡ changed kind.now self.old.rows }
        ensures stays { needs_room kind.now ≡ false → IsKept self.old.reserved self.new.reserved }
    {
        match kind {
            EventKind::Onboarded(_) => self.put_descriptor(),
            EventKind::Created { instance, .. } => self.put_instance(*instance),
            EventKind::Deleted { instance } => self.leave_instance(*instance),
            EventKind::Subscribed { subscription, .. } => self.put_subscription(*subscription),
            EventKind::Unsubscribed { subscription } => self.leave_subscription(*subscription),
            EventKind::Posted {
                subscription,
                place,
                outcome,
            } => self.post(*subscription, *place, *outcome),
            EventKind::Asked(operation) => self.follow_ask(operation),
            EventKind::Granted { occ, .. } => self.follow_grant(*occ),
            EventKind::Settled { tag, outcome } => self.follow_settled(tag, outcome),
            EventKind::Moved { occ, to } => self.follow_move(*occ, *to),
            _ => {}
        }
    }

    /// Lets the rows follow an event, from what is reserved for it: no memory is taken.
    ///
    /// Source: own rule.
    pub fn apply(&mut self, e: &Event)
        requires room { HasRoom e.now.kind self.old.rows self.old.reserved }
        ensures applies { Applies e.now self.old.rows self.new.rows }
        ensures stays { needs_room e.now.kind ≡ false → IsKept self.old.reserved self.new.reserved }
    {
        self.follow(&e.kind);
        self.count_event();
    }
}
