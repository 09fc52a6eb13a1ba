//! Tasks of an occurrence: retry, rollback, fail and cancel.
ghost use Rattle.std.specs.Prelude.{◌≡◌, ◌∷◌, List, IfOk, Some, None, false};
ghost use Rattle.lcm_events.specs.declared.events.Event.{Event};
ghost use Rattle.lcm_events.specs.declared.events.EventKind.TheVariants.{Moved};
ghost use Rattle.lcm_events.specs.declared.events.Operation.{Operation};
ghost use Rattle.executor.specs.Managed.{Keeps};
ghost use Rattle.lcm_api.specs.Recording.{IsPlanned};
ghost use Rattle.lcm_api.specs.Planning.{told};
ghost use Rattle.lcm_api.specs.Tasks.{IsTaskVerdict, occurrence_task, task_asked, task_event, task_kind, task_named};
ghost use Rattle.lcm_api.specs.Tasks.{task_of, task_refused, task_reply, taken};
ghost use Rattle.lcm_model.specs.Allowed.{IsAllowed};
ghost use Rattle.lcm_model.specs.Operations.{operation};
ghost use Rattle.occ_table.specs.Rows.{occurrence};
ghost use Rattle.occ_table.specs.Steps.{after_move};

use crate::bodies::refused_body;
use crate::instances::asked_id;
use crate::media::is_json;
use crate::occurrences::{named_number, no_occurrence, show_row};
use crate::record::Planned;
use executor::Manager;
use http_wire::Request;
use json_bodies::read_cancel;
use json_views::{legal_occurrences_can_be_shown, state_word};
use lcm_events::{CancelMode, Event, EventKind, OpState, Task};
use lcm_replies::{Reply, refusal, refusal_about};
use occ_table::OccRow;
use occurrence_graph::{TaskRefusal, task_allowed};
use site_traits::Site;
use std::alloc::{AllocError, Global};
use vnfm_base::{Bytes, Moment};

/// A task that is asked of an occurrence, with what its body says.
///
/// Source: SOL 003 5.4.14 to 5.4.17 (Retry, Rollback, Fail, Cancel operation task).
#[derive(Clone, Copy)]
pub enum AskedTask {
    /// Take the work up again.
    Retry,
    /// Undo what was done.
    Rollback,
    /// Give the operation up.
    Fail,
    /// Stop the work under way, in this mode.
    Cancel(CancelMode),
}

/// What a request for this task of an occurrence comes to, where there is room for its event. Only the body of a cancel
/// is read.
///
/// Refusals of the request are replies, in this order: 415 for the media type of a cancel, 400 for its body, 404 for
/// the occurrence, 404 for rollback of TERMINATE, 409 for the state of the occurrence. The call's one refusal is want
/// of memory. Source: SOL 003 5.4.14 to 5.4.17 (Retry, Rollback, Fail, Cancel operation task).
pub fn task<S: Site>(
    alloc: Global,
    manager: &Manager<S>,
    task: Task,
    request: &Request,
    now: Moment,
) -> Result<Planned, AllocError>
    requires usable { manager.now.ledger.closed ≡ false }
    requires kept { (H : List Event) × Keeps manager.now H }
    ensures { (H : List Event) → Keeps manager.now H → IfOk result
        (IsPlanned (occurrence_task manager.now.ledger.manager H now task request.now) manager.now H) }
{
    match judge(alloc, task, request)? {
        TaskVerdict::Refused(reply) => Ok(Planned::Told(reply)),
        TaskVerdict::Asks(asked) => task_as(alloc, manager, asked, request, now),
    }
}

/// What a request for a task of an occurrence asks for, as far as it says by itself.
#[derive(Drop)]
enum TaskVerdict {
    /// It is refused with this reply.
    Refused(Reply),
    /// It asks for this.
    Asks(AskedTask),
}

/// Judges a request for this task of an occurrence by itself.
fn judge(alloc: Global, task: Task, request: &Request) -> Result<TaskVerdict, AllocError>
    ensures { IfOk result (IsTaskVerdict task request.now) }
{
    match task {
        Task::Retry => Ok(TaskVerdict::Asks(AskedTask::Retry)),
        Task::Rollback => Ok(TaskVerdict::Asks(AskedTask::Rollback)),
        Task::Fail => Ok(TaskVerdict::Asks(AskedTask::Fail)),
        Task::Cancel => judge_cancel(alloc, request),
    }
}

/// Judges a cancel of an occurrence by its media type and its body.
fn judge_cancel(alloc: Global, request: &Request) -> Result<TaskVerdict, AllocError>
    ensures { IfOk result (IsTaskVerdict Task.Cancel request.now) }
{
    if !is_json(&request.media) {
        let refused = refusal(alloc, 415, "body must be application/json", request.last)?;
        return Ok(TaskVerdict::Refused(refused));
    }
    match read_cancel(alloc, request.body.as_slice()) {
        Ok(mode) => Ok(TaskVerdict::Asks(AskedTask::Cancel(mode))),
        Err(fault) => Ok(TaskVerdict::Refused(refused_body(alloc, &fault, request.last)?)),
    }
}

/// What asking this of the occurrence that a request names comes to.
fn task_as<S: Site>(
    alloc: Global,
    manager: &Manager<S>,
    asked: AskedTask,
    request: &Request,
    now: Moment,
) -> Result<Planned, AllocError>
    requires usable { manager.now.ledger.closed ≡ false }
    requires kept { (H : List Event) × Keeps manager.now H }
    ensures { (H : List Event) → Keeps manager.now H → IfOk result
        (IsPlanned (task_named manager.now.ledger.manager H now asked request.now) manager.now H) }
{
    match named_number(manager, asked_id(request)) {
        Some(n) => task_of_number(alloc, manager, asked, n, now, request.last),
        None => Ok(Planned::Told(no_occurrence(alloc, request.last)?)),
    }
}

/// What asking this of the occurrence of this number comes to, where there is one.
fn task_of_number<S: Site>(
    alloc: Global,
    manager: &Manager<S>,
    asked: AskedTask,
    n: u64,
    now: Moment,
    last: bool,
) -> Result<Planned, AllocError>
    requires usable { manager.now.ledger.closed ≡ false }
    requires kept { (H : List Event) × Keeps manager.now H }
    ensures { (H : List Event) → Keeps manager.now H → IfOk result
        (IsPlanned (task_asked manager.now.ledger.manager H now asked last (operation H n)) manager.now H) }
{
    match manager.occurrences().occurrence(n) {
        Some(row) => task_of_row(alloc, manager, asked, n, row, now, last),
        None => Ok(Planned::Told(no_occurrence(alloc, last)?)),
    }
}

/// What asking this of the occurrence of this number, of this row, comes to.
fn task_of_row<S: Site>(
    alloc: Global,
    manager: &Manager<S>,
    asked: AskedTask,
    n: u64,
    row: &OccRow,
    now: Moment,
    last: bool,
) -> Result<Planned, AllocError>
    requires usable { manager.now.ledger.closed ≡ false }
    requires found { (H : List Event) × Keeps manager.now H × (occurrence H n ≡ Some row.now) }
    ensures { (H : List Event) → Keeps manager.now H → occurrence H n ≡ Some row.now
        → IfOk result (IsPlanned (task_asked manager.now.ledger.manager H now asked last (operation H n)) manager.now
        H) }
{
    match task_allowed(row.ask.kind(), row.state, task_of(asked)) {
        Ok(()) => {
            let reply = reply_to(alloc, manager, asked, n, row, now, last)?;
            Ok(Planned::Records(task_event(now, n, asked), reply))
        }
        Err(why) => Ok(Planned::Told(task_refused(alloc, why, last)?)),
    }
}

/// The reply to what is asked of the occurrence of this number, of this row, where it is allowed: fail shows the
/// occurrence, as it is then.
fn reply_to<S: Site>(
    alloc: Global,
    manager: &Manager<S>,
    asked: AskedTask,
    n: u64,
    row: &OccRow,
    now: Moment,
    last: bool,
) -> Result<Reply, AllocError>
    requires usable { manager.now.ledger.closed ≡ false }
    requires found { (H : List Event) × Keeps manager.now H × (occurrence H n ≡ Some row.now) }
    ensures { (H : List Event) (a : Operation) → Keeps manager.now H → operation H n ≡ Some a
        → occurrence H n ≡ Some row.now
        → IsAllowed manager.now.ledger.manager H (task_kind n asked)
        → IfOk result (λ reply. reply ≡ task_reply manager.now.ledger.manager
        (task_event now n asked ∷ H) asked a last) }
{
    match asked {
        AskedTask::Fail => show_failed(alloc, manager, n, row, now, last),
        AskedTask::Retry | AskedTask::Rollback | AskedTask::Cancel(_) => Ok(taken(alloc, last)),
    }
}

/// Shows the occurrence of this number, of this row, as it is once it has failed at this moment.
fn show_failed<S: Site>(
    alloc: Global,
    manager: &Manager<S>,
    n: u64,
    row: &OccRow,
    now: Moment,
    last: bool,
) -> Result<Reply, AllocError>
    requires usable { manager.now.ledger.closed ≡ false }
    requires found { (H : List Event) × Keeps manager.now H × (occurrence H n ≡ Some row.now) }
    ensures { (H : List Event) (a : Operation) → Keeps manager.now H → operation H n ≡ Some a
        → occurrence H n ≡ Some row.now
        → IsAllowed manager.now.ledger.manager H (task_kind n AskedTask.Fail)
        → IfOk result (λ reply. reply ≡ task_reply manager.now.ledger.manager
        (task_event now n AskedTask.Fail ∷ H) AskedTask.Fail a last) }
{
    legal_occurrences_can_be_shown();
    let _table = manager.occurrences();
    let failed = failed_row(alloc, row, now)?;
    show_row(alloc, manager, n, &failed, last)
}

/// The row of an occurrence once it has failed at this moment.
fn failed_row(alloc: Global, row: &OccRow, now: Moment) -> Result<OccRow, AllocError>
    ensures { IfOk result (λ r. r ≡ after_move now OpState.Failed row.now) }
{
    let mut failed = row.copy(alloc)?;
    failed.move_to(now, OpState::Failed);
    Ok(failed)
}

/// Which task it is.
fn task_of(asked: AskedTask) -> Task
    ensures { result ≡ task_of asked }
{
    match asked {
        AskedTask::Retry => Task::Retry,
        AskedTask::Rollback => Task::Rollback,
        AskedTask::Fail => Task::Fail,
        AskedTask::Cancel(_) => Task::Cancel,
    }
}

/// What happens to the occurrence of this number where this is asked of it.
fn task_kind(n: u64, asked: AskedTask) -> EventKind
    ensures { result ≡ task_kind n asked }
{
    match asked {
        AskedTask::Retry => moved(n, OpState::Processing),
        AskedTask::Rollback => moved(n, OpState::RollingBack),
        AskedTask::Fail => moved(n, OpState::Failed),
        AskedTask::Cancel(mode) => EventKind::CancelAsked { occ: n, mode },
    }
}

/// That the occurrence of this number moves to this state.
fn moved(n: u64, to: OpState) -> EventKind
    ensures { result ≡ Moved n to }
{
    EventKind::Moved { occ: n, to }
}

/// The event of what is asked of the occurrence of this number at this moment.
fn task_event(moment: Moment, n: u64, asked: AskedTask) -> Event
    ensures { result ≡ task_event moment n asked }
{
    Event {
        moment,
        kind: task_kind(n, asked),
    }
}

/// The refusal of a task.
///
/// Source: SOL 003 5.4.14 to 5.4.17; the texts are own rules, docs/FORMATS.md.
fn task_refused(alloc: Global, why: TaskRefusal, last: bool) -> Result<Reply, AllocError>
    ensures { IfOk result (λ reply. task_refused why last ≡ told reply) }
{
    match why {
        TaskRefusal::NotSupported => refusal(alloc, 404, "task is not supported", last),
        TaskRefusal::WrongState(state) => {
            refusal_about(alloc, 409, "operation is ", state_word(state), last)
        }
    }
}

/// The answer to a task that was taken up.
///
/// Source: RFC 9110 15.3.3.
#[tactic(auto, unfolding(crate::specs::Tasks::taken))]
fn taken(alloc: Global, last: bool) -> Reply
    ensures { result ≡ taken last }
{
    Reply {
        status: 202,
        location: None,
        allow: None,
        problem: false,
        body: Bytes::empty(alloc),
        last,
    }
}
