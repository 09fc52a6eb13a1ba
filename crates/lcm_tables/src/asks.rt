//! Whether an operation may be asked for, by the tables alone: its plan is made over what stands of its instance.

ghost use Rattle.std.specs.Prelude.{◌≡◌, ◌+◌, ◌↔◌, IfOk, IsTrue, Some};
ghost use Rattle.lcm_events.specs.declared.events.EventKind.TheVariants.{Asked};
ghost use Rattle.instance_table.specs.Rows.{instance};
ghost use Rattle.lcm_model.specs.Descriptors.{IsHoldingOf, IsValid};
ghost use Rattle.lcm_tables.specs.Asking.{IsAskedOf, IsPlanOver};
ghost use Rattle.lcm_tables.specs.Tables.{HasSmallHistory, JudgesSmall, Says};

use crate::tables::Tables;
use instance_table::{InstanceRow, rows_have_holdings};
use lcm_events::{EventKind, Holding, Operation, Vnfd};
use lcm_plans::{are_same, content_refusal_in, plan_standing};
use std::alloc::{AllocError, Global};

/// Whether an ask isn't refused over what stands of its instance, and the operation's changes are its plan; `busy`
/// where an operation of the instance goes on.
fn is_plan_of(
    alloc: Global,
    vnfd: &Vnfd,
    holding: &Holding,
    busy: bool,
    operation: &Operation,
) -> Result<bool, AllocError>
    requires valid { IsValid vnfd.now }
    requires held { IsHoldingOf vnfd.now holding.now }
    ensures { IfOk result (λ yes. IsTrue yes ↔ IsPlanOver vnfd.now holding.now busy operation.now.ask
        operation.now.changes) }
{
    if content_refusal_in(vnfd, &operation.ask).is_some() {
        return Ok(false);
    }
    match plan_standing(alloc, vnfd, holding, busy, &operation.ask)? {
        Ok(plan) => Ok(are_same(operation.changes.as_slice(), plan.as_slice())),
        Err(_) => Ok(false),
    }
}

/// Whether this is the number behind so many.
fn is_next(made: u64, number: u64) -> bool
    ensures { IsTrue result ↔ (number ≡ made + 1) }
{
    made < number && number - made == 1
}

impl Tables {
    /// Whether an operation may be asked of an instance with this descriptor and this holding.
    fn may_ask_over(
        &self,
        alloc: Global,
        vnfd: &Vnfd,
        holding: &Holding,
        operation: &Operation,
    ) -> Result<bool, AllocError>
        requires valid { IsValid vnfd.now }
        requires held { IsHoldingOf vnfd.now holding.now }
        requires own { Says (λ H. IsAskedOf H operation.now.instance vnfd.now holding.now) self.now }
        ensures judged { IfOk result (λ yes. JudgesSmall (Asked operation.now) yes self.now) }
    {
        let busy = self.is_busy(operation.instance);
        let next = is_next(self.occurrences.made(), operation.occ);
        let planned = is_plan_of(alloc, vnfd, holding, busy, operation)?;
        Ok(next && planned)
    }

    /// Whether an operation may be asked of the live instance of this row.
    fn may_ask_of(
        &self,
        alloc: Global,
        row: &InstanceRow,
        operation: &Operation,
    ) -> Result<bool, AllocError>
        requires small { HasSmallHistory self.now }
        requires own { Says (λ H. instance H operation.now.instance ≡ Some row.now) self.now }
        ensures judged { IfOk result (λ yes. JudgesSmall (Asked operation.now) yes self.now) }
    {
        rows_have_holdings();
        match self.instances.vnfd(&row.vnfd) {
            Some(vnfd) => self.may_ask_over(alloc, vnfd, &row.holding, operation),
            None => Ok(false),
        }
    }

    /// Whether an operation may be asked for: its number is the next, its instance is live, and it is accepted with its
    /// plan.
    ///
    /// Source: SOL 003 5.4.4 to 5.4.10 (the tasks of an individual VNF instance).
    pub fn may_ask(&self, alloc: Global, operation: &Operation) -> Result<bool, AllocError>
        requires small { HasSmallHistory self.now }
        ensures judged { IfOk result (λ yes. JudgesSmall (Asked operation.now) yes self.now) }
    {
        match self.instances.instance(operation.instance) {
            Some(row) => self.may_ask_of(alloc, row, operation),
            None => Ok(false),
        }
    }

    /// Whether an event may follow the history whose tables these are, by the tables alone.
    ///
    /// Source: docs/MODEL.md, "Allowed and legal".
    pub fn may_follow(&self, alloc: Global, kind: &EventKind) -> Result<bool, AllocError>
        requires small { HasSmallHistory self.now }
        ensures judged { IfOk result (λ yes. JudgesSmall kind.now yes self.now) }
    {
        match kind {
            EventKind::Onboarded(vnfd) => Ok(self.may_onboard(vnfd)),
            EventKind::Created { instance, vnfd, .. } => Ok(self.may_create(*instance, vnfd)),
            EventKind::Deleted { instance } => Ok(self.may_delete(*instance)),
            EventKind::Asked(operation) => self.may_ask(alloc, operation),
            EventKind::Subscribed {
                subscription,
                role,
                filter,
                ..
            } => Ok(self.may_subscribe(*subscription, *role, filter)),
            EventKind::Unsubscribed { subscription } => Ok(self.may_unsubscribe(*subscription)),
            EventKind::Posted {
                subscription,
                place,
                ..
            } => Ok(self.may_post(*subscription, *place)),
            kind => self.may_follow_work(alloc, kind),
        }
    }
}
