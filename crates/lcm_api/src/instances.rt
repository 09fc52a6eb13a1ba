//! Listing, showing and deleting instances.
ghost use Rattle.std.specs.Prelude.{◌≡◌, List, IfOk, IfSome, Some, true, false, option_copied};
ghost use Rattle.lcm_events.specs.declared.events.Event.{Event};
ghost use Rattle.executor.specs.Managed.{Keeps};
ghost use Rattle.executor.specs.Operating.{IsRowOf};
ghost use Rattle.instance_table.specs.Rows.{rows};
ghost use Rattle.json_views.specs.Instances.{IsShowable};
ghost use Rattle.lcm_api.specs.Instances.{asked_id, delete_found, delete_instance, deleted, deletion, list_instances};
ghost use Rattle.lcm_api.specs.Instances.{named_instance, no_instance, row_text, show_found, show_instance};
ghost use Rattle.lcm_api.specs.Recording.{IsPlanned};
ghost use Rattle.lcm_api.specs.Planning.{told};

use crate::record::Planned;
use crate::refusals::refusal_for;
use executor::Manager;
use http_wire::Request;
use instance_table::InstanceRow;
use json_views::{instance_view, instances_view, legal_rows_can_be_shown};
use lcm_events::{Event, EventKind};
use lcm_replies::{Reply, refusal, shown};
use lcm_routes::{asks_filter, identifier_in, path_of};
use site_traits::Site;
use std::alloc::{AllocError, Global};
use vnfm_base::{Bytes, Kind, Moment, ident_read};

/// Lists the live instances, in the order of their numbers. A filter is refused.
///
/// Source: SOL 003 5.4.2.3.2.
pub fn list<S: Site>(
    alloc: Global,
    manager: &Manager<S>,
    request: &Request,
) -> Result<Planned, AllocError>
    requires usable { manager.now.ledger.closed ≡ false }
    requires kept { (H : List Event) × Keeps manager.now H }
    ensures { (H : List Event) → Keeps manager.now H → IfOk result
        (IsPlanned (list_instances manager.now.ledger.manager H request.now) manager.now H) }
{
    legal_rows_can_be_shown();
    if asks_filter(request.target.as_str()) {
        return Ok(Planned::Told(refusal(alloc, 400, "filter is not served", request.last)?));
    }
    let body = instances_view(alloc, manager.number(), manager.instances())?;
    Ok(Planned::Told(shown(body, request.last)))
}

/// Shows an instance.
///
/// Source: SOL 003 5.4.3.3.2.
pub fn show<S: Site>(
    alloc: Global,
    manager: &Manager<S>,
    request: &Request,
) -> Result<Planned, AllocError>
    requires usable { manager.now.ledger.closed ≡ false }
    requires kept { (H : List Event) × Keeps manager.now H }
    ensures { (H : List Event) → Keeps manager.now H → IfOk result
        (IsPlanned (show_instance manager.now.ledger.manager H request.now) manager.now H) }
{
    let reply = match named_instance(manager, asked_id(request)) {
        Some(row) => show_row(alloc, manager, row, request.last)?,
        None => no_instance(alloc, request.last)?,
    };
    Ok(Planned::Told(reply))
}

/// What a request to delete an instance comes to, where there is room for its event.
///
/// Refusals of the request are replies, in this order: 404 for the instance, 409 where it is INSTANTIATED or an
/// operation goes on. The call's one refusal is want of memory.
/// Source: SOL 003 5.4.3.3.5.
pub fn delete<S: Site>(
    alloc: Global,
    manager: &Manager<S>,
    request: &Request,
    now: Moment,
) -> Result<Planned, AllocError>
    requires usable { manager.now.ledger.closed ≡ false }
    ensures { (H : List Event) → Keeps manager.now H → IfOk result
        (IsPlanned (delete_instance manager.now.ledger.manager H now request.now) manager.now H) }
{
    let Some(row) = named_instance(manager, asked_id(request)) else {
        return Ok(Planned::Told(no_instance(alloc, request.last)?));
    };
    match manager.delete_refusal(row) {
        Some(why) => Ok(Planned::Told(refusal_for(alloc, why, request.last)?)),
        None => Ok(Planned::Records(deletion(now, row.number), deleted(alloc, request.last))),
    }
}

/// The identifier in the path of a request.
pub fn asked_id(request: &Request) -> &str
    ensures { result.now ≡ asked_id request.now }
{
    identifier_in(path_of(request.target.as_str()))
}

/// The row of the live instance that has this identifier; none exactly where no live instance has it.
pub fn named_instance<'a, S: Site>(manager: &'a Manager<S>, id: &str) -> Option<&'a InstanceRow>
    requires usable { manager.now.ledger.closed ≡ false }
    ensures named { (H : List Event) → Keeps manager.now H
        → option_copied result ≡ named_instance manager.now.ledger.manager H id.now }
    ensures own { IfSome result (λ row. IsRowOf manager.now row.now) }
    ensures shown { (H : List Event) → Keeps manager.now H → IfSome result (λ row. IsShowable (rows H) row.now) }
{
    legal_rows_can_be_shown();
    let table = manager.instances();
    let n = ident_read(id.as_bytes(), manager.number(), Kind::Instance)?;
    table.instance(n)
}

/// Shows the instance of this row.
fn show_row<S: Site>(
    alloc: Global,
    manager: &Manager<S>,
    row: &InstanceRow,
    last: bool,
) -> Result<Reply, AllocError>
    requires usable { manager.now.ledger.closed ≡ false }
    requires showable { (H : List Event) × Keeps manager.now H × IsShowable (rows H) row.now }
    ensures { (H : List Event) → Keeps manager.now H → IsShowable (rows H) row.now
        → IfOk result (λ reply. show_found manager.now.ledger.manager H last (Some row.now) ≡ told reply) }
{
    let Some(vnfd) = manager.instances().vnfd(&row.vnfd) else {
        unreachable!()
    };
    let body = instance_view(alloc, manager.number(), row.number, row, vnfd)?;
    Ok(shown(body, last))
}

/// The refusal where no live instance has the identifier.
pub fn no_instance(alloc: Global, last: bool) -> Result<Reply, AllocError>
    ensures { IfOk result (λ reply. no_instance last ≡ told reply) }
{
    refusal(alloc, 404, "no such instance", last)
}

/// The event that an instance was deleted.
fn deletion(moment: Moment, instance: u64) -> Event
    ensures { result ≡ deletion moment instance }
{
    Event {
        moment,
        kind: EventKind::Deleted { instance },
    }
}

/// The answer to a deletion, also of a subscription.
#[tactic(auto, unfolding(crate::specs::Instances::deleted))]
pub fn deleted(alloc: Global, last: bool) -> Reply
    ensures { result ≡ deleted last }
{
    Reply {
        status: 204,
        location: None,
        allow: None,
        problem: false,
        body: Bytes::empty(alloc),
        last,
    }
}
