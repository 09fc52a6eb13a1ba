//! What the table reserves for an event, so that it follows the event without memory.

ghost use Rattle.std.specs.Prelude.{◌≡◌, ◌<◌, Some, false, find, ◌==◌, length, IfOk, IfSome, OnOk, option_map};
ghost use Rattle.lcm_events.specs.Same.{same_name};
ghost use Rattle.lcm_events.specs.declared.events.EventKind.TheVariants.{Settled};
ghost use Rattle.instance_table.specs.Steps.{AreOrdered, Rises, aim_at, first_aim, first_going, first_instance};
ghost use Rattle.instance_table.specs.Steps.{first_stood, items_about, first_subscription};
ghost use Rattle.instance_table.specs.Table.{HasRoom, needs_room};

use crate::aims::aim_from;
use crate::copies::{copied_filter, copied_line, copied_vnfd};
use crate::going::{Going, Placing, going_in};
use crate::instances::reserve_in;
use crate::rows::{InstanceRow, SubscriptionRow, first_holding};
use crate::table::InstanceTable;
use crate::work::stood_of;
use lcm_events::{
    Ask, Event, EventKind, Filter, Levels, Listed, Operation, Outcome, Place, Role, Tag, Vnfd,
};
use std::alloc::{AllocError, Global};
use vnfm_base::{Line, Name};

impl InstanceTable {
    /// Reserves a descriptor.
    fn reserve_descriptor(&mut self, alloc: Global, vnfd: &Vnfd) -> Result<(), AllocError>
        ensures kept { self.new.rows ≡ self.old.rows }
        ensures laid { OnOk result (self.new.reserved.descriptor ≡ Some vnfd.now) }
        ensures spare { OnOk result (0 < self.new.reserved.descriptors) }
    {
        self.descriptors.reserve(1)?;
        let copy = copied_vnfd(alloc, vnfd)?;
        self.descriptor = Some(copy);
        Ok(())
    }

    /// Reserves the row of an instance.
    fn reserve_instance(
        &mut self,
        alloc: Global,
        number: u64,
        vnfd: Name,
        name: Option<Name>,
        text: &Option<Line>,
    ) -> Result<(), AllocError>
        ensures kept { self.new.rows ≡ self.old.rows }
        ensures laid { OnOk result (self.new.reserved.instance
            ≡ Some (first_instance (find (λ d. same_name d.descriptor_id vnfd) self.new.rows.descriptors) number vnfd
            name text.now)) }
        ensures spare { OnOk result (0 < self.new.reserved.instances) }
    {
        self.instances.reserve(1)?;
        let text = copied_line(text)?;
        let holding = first_holding(alloc, self.vnfd_named(&vnfd))?;
        self.instance = Some(InstanceRow {
            number,
            vnfd,
            name,
            text,
            holding,
        });
        Ok(())
    }

    /// Reserves the row of a subscription.
    fn reserve_subscription(
        &mut self,
        alloc: Global,
        number: u64,
        role: Role,
        callback: &Line,
        filter: &Filter,
    ) -> Result<(), AllocError>
        ensures kept { self.new.rows ≡ self.old.rows }
        ensures laid { OnOk result (self.new.reserved.subscription
            ≡ Some (first_subscription 0 number role callback.now filter.now)) }
        ensures spare { OnOk result (0 < self.new.reserved.subscriptions) }
    {
        self.subscriptions.reserve(1)?;
        let callback = callback.clone()?;
        let filter = copied_filter(alloc, filter)?;
        self.subscription = Some(SubscriptionRow {
            number,
            role,
            callback,
            filter,
            from: 0,
            cursor: 0,
            tries: 0,
        });
        Ok(())
    }

    /// The levels that an ask aims at, from those of an instance; none where its descriptor isn't there.
    fn aim_at(&self, alloc: Global, row: &InstanceRow, ask: &Ask) -> Result<Levels, AllocError>
        ensures { IfOk result (λ l. l ≡ aim_at self.now.rows.descriptors ask.now row.now) }
    {
        match self.vnfd_named(&row.vnfd) {
            Some(vnfd) => aim_from(alloc, vnfd, row.holding.levels.as_slice(), ask),
            None => Ok(Listed::new(alloc)),
        }
    }

    /// The levels that an operation aims at, from those of its instance; none where the instance isn't live.
    fn aim_of(&self, alloc: Global, operation: &Operation) -> Result<Levels, AllocError>
        ensures { AreOrdered self.now.rows → IfOk result (λ l. l ≡ first_aim self.now.rows operation.now) }
    {
        match self.instance_numbered(operation.instance) {
            Some(row) => self.aim_at(alloc, row, &operation.ask),
            None => Ok(Listed::new(alloc)),
        }
    }

    /// For each change of an operation that removes something, where that stands; none where the instance isn't live.
    fn stood_of(
        &self,
        alloc: Global,
        operation: &Operation,
    ) -> Result<Listed<Option<Place>>, AllocError>
        ensures { AreOrdered self.now.rows → IfOk result (λ l. l ≡ first_stood self.now.rows operation.now) }
    {
        match self.instance_numbered(operation.instance) {
            Some(row) => stood_of(
                alloc,
                row.holding.items.as_slice(),
                operation.changes.as_slice(),
            ),
            None => Ok(Listed::new(alloc)),
        }
    }

    /// Reserves what is kept of an operation while it goes on.
    fn reserve_operation(&mut self, alloc: Global, operation: &Operation) -> Result<(), AllocError>
        ensures kept { self.new.rows ≡ self.old.rows }
        ensures laid { OnOk result (AreOrdered self.new.rows
            → self.new.reserved.operation ≡ Some (first_going self.new.rows operation.now)) }
        ensures spare { OnOk result (0 < self.new.reserved.going) }
    {
        self.going.reserve(1)?;
        let aim = self.aim_of(alloc, operation)?;
        let stood = self.stood_of(alloc, operation)?;
        self.operation = Some(Going::of(alloc, operation, aim, stood)?);
        Ok(())
    }

    /// Reserves what a grant gives.
    fn reserve_placing(
        &mut self,
        alloc: Global,
        places: &[Place],
        spots: &[u8],
    ) -> Result<(), AllocError>
        ensures kept { self.new.rows ≡ self.old.rows }
        ensures laid { OnOk result (self.new.reserved.placing
            ≡ Some (record { places = places.now; spots = spots.now })) }
    {
        self.placing = Some(Placing::copied(alloc, places, spots)?);
        Ok(())
    }

    /// The instance of the operation that goes on of this occurrence.
    fn instance_of(&self, occ: u64) -> Option<u64>
        ensures { Rises (λ g. g.occ) self.now.rows.going → result
            ≡ option_map (λ g. g.instance) (find (λ g. g.occ == occ) self.now.rows.going) }
    {
        match going_in(self.going.as_slice(), occ) {
            Some(going) => Some(going.instance),
            None => None,
        }
    }

    /// Reserves room for one more item of an instance.
    fn reserve_item(&mut self, number: u64) -> Result<(), AllocError>
        ensures kept { self.new.rows ≡ self.old.rows }
        ensures room { OnOk result (Rises (λ r. r.number) self.new.rows.instances
            → IfSome (find (λ r. r.number == number) self.new.rows.instances)
            (λ r. length r.holding.items < self.new.reserved.room)) }
    {
        reserve_in(&mut self.instances, &mut self.editor, number)
    }

    /// Reserves room for one more item of the instance of an occurrence.
    fn reserve_done(&mut self, occ: u64) -> Result<(), AllocError>
        ensures kept { self.new.rows ≡ self.old.rows }
        ensures room { OnOk result (AreOrdered self.new.rows
            → IfSome (items_about self.new.rows occ) (λ ys. length ys < self.new.reserved.room)) }
    {
        match self.instance_of(occ) {
            Some(number) => self.reserve_item(number),
            None => Ok(()),
        }
    }

    /// Reserves what the end of an attempt needs.
    fn reserve_settled(&mut self, tag: &Tag, outcome: &Outcome) -> Result<(), AllocError>
        ensures kept { self.new.rows ≡ self.old.rows }
        ensures room { OnOk result (HasRoom (Settled tag.now outcome.now) self.new.rows self.new.reserved) }
        ensures stays { needs_room (Settled tag.now outcome.now) ≡ false → self.new.reserved ≡ self.old.reserved }
    {
        match outcome {
            Outcome::Done(_) => self.reserve_done(tag.occ),
            _ => Ok(()),
        }
    }

    /// Reserves the memory that an event needs, so that `apply` takes none. The rows stay, also after an error.
    ///
    /// Source: own rule.
    pub fn reserve_for(&mut self, alloc: Global, e: &Event) -> Result<(), AllocError>
        ensures kept { self.new.rows ≡ self.old.rows }
        ensures room { OnOk result (HasRoom e.now.kind self.new.rows self.new.reserved) }
        ensures stays { needs_room e.now.kind ≡ false → self.new.reserved ≡ self.old.reserved }
    {
        match &e.kind {
            EventKind::Onboarded(vnfd) => self.reserve_descriptor(alloc, vnfd),
            EventKind::Created {
                instance,
                vnfd,
                name,
                text,
            } => self.reserve_instance(alloc, *instance, *vnfd, *name, text),
            EventKind::Subscribed {
                subscription,
                role,
                callback,
                filter,
            } => self.reserve_subscription(alloc, *subscription, *role, callback, filter),
            EventKind::Asked(operation) => self.reserve_operation(alloc, operation),
            EventKind::Granted { places, spots, .. } => {
                self.reserve_placing(alloc, places.as_slice(), spots.as_slice())
            }
            EventKind::Settled { tag, outcome } => self.reserve_settled(tag, outcome),
            _ => Ok(()),
        }
    }
}
