//! Asking an instance for an operation: its tasks, one route for all.
ghost use Rattle.std.specs.Prelude.{◌≡◌, List, IfOk, Some, false};
ghost use Rattle.lcm_events.specs.declared.events.Event.{Event};
ghost use Rattle.lcm_events.specs.declared.events.Operation.{Operation};
ghost use Rattle.executor.specs.Managed.{Keeps};
ghost use Rattle.executor.specs.Operating.{IsRowOf};
ghost use Rattle.lcm_api.specs.Asked.{NamesFewTexts};
ghost use Rattle.lcm_api.specs.Asks.{IsAskVerdict, accepted, ask_described, ask_named, asking, instance_task, unserved};
ghost use Rattle.lcm_api.specs.Recording.{IsPlanned};
ghost use Rattle.change_planner.specs.Records.{NamesFew};
ghost use Rattle.lcm_model.specs.Lives.{descriptor};
ghost use Rattle.vnfm_base.specs.Ident.{IsIdentNumber};

use crate::asked::{AskedBody, ask_by, read_asked};
use crate::bodies::refused_body;
use crate::instances::{asked_id, named_instance, no_instance};
use crate::media::is_json;
use crate::record::Planned;
use crate::refusals::refusal_for;
use change_planner::asked_events_fit_records;
use executor::{AskFault, Manager};
use http_wire::Request;
use instance_table::{InstanceRow, rows_have_holdings};
use json_views::occurrence_path;
use lcm_events::{Ask, Event, EventKind, OpKind, Operation, Role, Vnfd};
use lcm_laws::{plans_are_exact, plans_are_small};
use lcm_replies::{Reply, location, refusal};
use site_traits::Site;
use std::alloc::{AllocError, Global};
use vnfm_base::{Bytes, Moment};

/// What a request of this role for this task of an instance comes to, where there is room for its event: the operation
/// is recorded with its plan, and its occurrence is STARTING.
///
/// Refusals of the request are replies, in this order: 415 for its media type, 400 for its body, 404 for the instance,
/// 422 for what the descriptor hasn't or what the body asks by itself, 409 for the state of the instance, 422 for what
/// stands, and for more machines than a VDU may have, 507 for too many resources. CHANGE_FLAVOUR, which isn't served
/// yet, is refused with 404, for the instance first, and its body isn't read. The call's one refusal is want of memory.
/// Source: SOL 003 5.4.4 to 5.4.10 (the tasks of an individual VNF instance).
pub fn task<S: Site>(
    alloc: Global,
    manager: &Manager<S>,
    kind: OpKind,
    role: Role,
    request: &Request,
    now: Moment,
) -> Result<Planned, AllocError>
    requires usable { manager.now.ledger.closed ≡ false }
    requires kept { (H : List Event) × Keeps manager.now H }
    ensures { (H : List Event) → Keeps manager.now H → IfOk result
        (IsPlanned (instance_task manager.now.ledger.manager H now role kind request.now) manager.now H) }
{
    match judge(alloc, kind, request)? {
        AskVerdict::Refused(reply) => Ok(Planned::Told(reply)),
        AskVerdict::Asks(body) => ask(alloc, manager, role, request, body, now),
        AskVerdict::Unserved => refuse_unserved(alloc, manager, request),
    }
}

/// What a request for a task of an instance asks for, as far as it says by itself.
#[derive(Drop)]
enum AskVerdict {
    /// It is refused with this reply.
    Refused(Reply),
    /// It asks for what this body says.
    Asks(AskedBody),
    /// It asks for an operation that isn't served yet.
    Unserved,
}

/// Judges a request for this task of an instance by its media type and its body.
fn judge(alloc: Global, kind: OpKind, request: &Request) -> Result<AskVerdict, AllocError>
    ensures { IfOk result (IsAskVerdict kind request.now) }
{
    if matches!(kind, OpKind::ChangeFlavour) {
        return Ok(AskVerdict::Unserved);
    }
    if !is_json(&request.media) {
        let refused = refusal(alloc, 415, "body must be application/json", request.last)?;
        return Ok(AskVerdict::Refused(refused));
    }
    match read_asked(alloc, kind, request.body.as_slice()) {
        Some(Ok(body)) => Ok(AskVerdict::Asks(body)),
        Some(Err(fault)) => Ok(AskVerdict::Refused(refused_body(alloc, &fault, request.last)?)),
        None => Ok(AskVerdict::Unserved),
    }
}

/// Refuses an operation that isn't served yet.
///
/// Source: own rule.
fn refuse_unserved<S: Site>(
    alloc: Global,
    manager: &Manager<S>,
    request: &Request,
) -> Result<Planned, AllocError>
    requires usable { manager.now.ledger.closed ≡ false }
    ensures { (H : List Event) → Keeps manager.now H → IfOk result
        (IsPlanned (unserved manager.now.ledger.manager H request.now) manager.now H) }
{
    match named_instance(manager, asked_id(request)) {
        Some(_) => Ok(Planned::Told(refusal(alloc, 404, "task is not supported", request.last)?)),
        None => Ok(Planned::Told(no_instance(alloc, request.last)?)),
    }
}

/// What asking the instance that a request names for what this body says comes to.
fn ask<S: Site>(
    alloc: Global,
    manager: &Manager<S>,
    role: Role,
    request: &Request,
    body: AskedBody,
    now: Moment,
) -> Result<Planned, AllocError>
    requires usable { manager.now.ledger.closed ≡ false }
    requires kept { (H : List Event) × Keeps manager.now H }
    requires few { NamesFewTexts body }
    ensures { (H : List Event) → Keeps manager.now H → IfOk result
        (IsPlanned (ask_named manager.now.ledger.manager H now role body request.now) manager.now H) }
{
    let Some(row) = named_instance(manager, asked_id(request)) else {
        return Ok(Planned::Told(no_instance(alloc, request.last)?));
    };
    let ask = ask_by(alloc, vnfd_of(manager, row), body)?;
    ask_row(alloc, manager, role, row, ask, now, request.last)
}

/// The descriptor of the live instance of this row.
fn vnfd_of<'a, S: Site>(manager: &'a Manager<S>, row: &InstanceRow) -> &'a Vnfd
    requires usable { manager.now.ledger.closed ≡ false }
    requires kept { (H : List Event) × Keeps manager.now H }
    requires own { IsRowOf manager.now row.now }
    ensures { (H : List Event) → Keeps manager.now H → descriptor H row.now.number ≡ Some result.now }
{
    rows_have_holdings();
    match manager.vnfd(&row.vnfd) {
        Some(vnfd) => vnfd,
        // The row of each live instance names a descriptor that was onboarded.
        None => unreachable!(),
    }
}

/// What asking the live instance of this row comes to.
fn ask_row<S: Site>(
    alloc: Global,
    manager: &Manager<S>,
    role: Role,
    row: &InstanceRow,
    ask: Ask,
    now: Moment,
    last: bool,
) -> Result<Planned, AllocError>
    requires usable { manager.now.ledger.closed ≡ false }
    requires few { NamesFew ask }
    requires own { IsRowOf manager.now row.now }
    ensures { (H : List Event) → Keeps manager.now H
        → IfOk result (IsPlanned (ask_described manager.now.ledger.manager H now role row.now.number (λ d. ask) last
        (descriptor H row.now.number)) manager.now H) }
{
    asked_events_fit_records();
    plans_are_exact();
    plans_are_small();
    match manager.plan_asked(alloc, row, &ask) {
        Ok(changes) => {
            let occ = manager.next_occurrence();
            let reply = accepted(alloc, manager.number(), occ, last)?;
            let operation = Operation {
                occ,
                instance: row.number,
                role,
                ask,
                changes,
            };
            Ok(Planned::Records(asking(now, operation), reply))
        }
        Err(AskFault::Refused(why)) => Ok(Planned::Told(refusal_for(alloc, why, last)?)),
        Err(AskFault::Memory) => Err(AllocError),
    }
}

/// The event that an operation was asked for.
fn asking(moment: Moment, operation: Operation) -> Event
    ensures { result ≡ asking moment operation }
{
    Event {
        moment,
        kind: EventKind::Asked(operation),
    }
}

/// The answer to an ask: where its occurrence is found.
#[tactic(auto, unfolding(crate::specs::Asks::accepted))]
fn accepted(alloc: Global, manager: u32, occ: u64, last: bool) -> Result<Reply, AllocError>
    requires { IsIdentNumber occ }
    ensures { IfOk result (λ reply. reply ≡ accepted manager occ last) }
{
    let path = occurrence_path(alloc, manager, occ)?;
    Ok(Reply {
        status: 202,
        location: Some(location(path)),
        allow: None,
        problem: false,
        body: Bytes::empty(alloc),
        last,
    })
}
