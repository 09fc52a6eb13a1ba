//! Which state of an operation occurrence may follow which, which task may be asked of it, and what a cancel does
//! first.
#![tactic(auto)]

ghost use Rattle.std.specs.Prelude.{◌≡◌, ◌↔◌, true};
ghost use Rattle.lcm_events.specs.declared.asks.OpKind.TheVariants.{Terminate};
ghost use Rattle.lcm_events.specs.declared.states.Task.TheVariants.{Rollback};
ghost use Rattle.lcm_model.specs.Moves.{edge as is_edge, is_active};
ghost use Rattle.lcm_model.specs.Refusals.{has_task, serves, task_refusal};
ghost use Rattle.lcm_model.specs.declared.refusals.TaskRefusal.{TaskRefusal as Why};
ghost use Rattle.occurrence_graph.specs.Cancels.{CancelsAreTaken, Halts, Leaves, Waits};

use lcm_events::{CancelMode, OpKind, OpState, Task};
pub use lcm_model::TaskRefusal;
use lcm_model::{may_follow, works};

/// Whether an occurrence may go from the one state to the other, along one of the nine edges of the graph.
///
/// Source: SOL 003 5.6.2 (States and state transitions of a VNF LCM operation occurrence).
pub fn edge(from: OpState, to: OpState) -> bool
    ensures { result ≡ is_edge from to }
{
    may_follow(from, to)
}

/// Whether the operation has the task: all have all, but TERMINATE isn't rolled back.
fn is_supported(op: OpKind, task: Task) -> bool
    ensures { result ≡ has_task op task }
{
    !matches!((op, task), (OpKind::Terminate, Task::Rollback))
}

/// Whether the task is for an occurrence in this state: cancel for one that is worked on, the others for FAILED_TEMP.
fn is_served(task: Task, state: OpState) -> bool
    ensures { result ≡ serves task state }
{
    match task {
        Task::Cancel => works(state),
        Task::Retry | Task::Rollback | Task::Fail => state == OpState::FailedTemp,
    }
}

/// Whether a task may be asked of an occurrence of this operation in this state.
///
/// Refusals, in this order: `NotSupported` exactly for rollback of TERMINATE; `WrongState`, with the state, exactly
/// where cancel is asked and the state isn't STARTING, PROCESSING or ROLLING_BACK, or another task is asked and it
/// isn't FAILED_TEMP.
/// Source: SOL 003 5.4.14 to 5.4.17 (Retry, Rollback, Fail, Cancel operation task); that TERMINATE has no rollback is
/// an own rule.
pub fn task_allowed(op: OpKind, state: OpState, task: Task) -> Result<(), TaskRefusal>
    ensures not_supported { (result ≡ Err TaskRefusal.NotSupported) ↔ (op ≡ Terminate) × (task ≡ Rollback) }
    ensures refused { (why : Why) → (result ≡ Err why) ↔ (task_refusal op state task ≡ Some why) }
{
    if !is_supported(op, task) {
        Err(TaskRefusal::NotSupported)
    } else if !is_served(task, state) {
        Err(TaskRefusal::WrongState(state))
    } else {
        Ok(())
    }
}

/// What is done first with an occurrence that is cancelled.
///
/// Source: SOL 003 5.4.17 (Cancel operation task).
#[derive(Clone, Copy)]
pub enum CancelStep {
    /// It leaves its state now: STARTING for ROLLED_BACK, PROCESSING and ROLLING_BACK for FAILED_TEMP.
    Leave,
    /// The open attempts are aborted, and it leaves once they have ended.
    Halt,
    /// The open attempts, or the answer to the grant request, are waited for.
    Wait,
}

/// What is done first with an active occurrence that is cancelled in this mode. `waiting` says that an attempt is open,
/// or in STARTING that the exchange of the grant hasn't ended.
///
/// Source: SOL 003 5.4.17 (Cancel operation task) and 5.5.2.14 (CancelMode).
pub fn cancel_step(state: OpState, mode: CancelMode, waiting: bool) -> CancelStep
    requires active { is_active state ≡ true }
    ensures leave { (result ≡ CancelStep.Leave) ↔ Leaves state mode waiting }
    ensures halt { (result ≡ CancelStep.Halt) ↔ Halts state mode waiting }
    ensures wait { (result ≡ CancelStep.Wait) ↔ Waits mode waiting }
{
    if !waiting {
        return CancelStep::Leave;
    }
    match (state, mode) {
        (OpState::Starting, CancelMode::Forceful) => CancelStep::Leave,
        (_, CancelMode::Forceful) => CancelStep::Halt,
        (_, CancelMode::Graceful) => CancelStep::Wait,
    }
}

/// After every history the next action of an active occurrence under a cancel is the step of `cancel_step`: `Leave` is
/// the move, `Halt` aborts the open attempt, `Wait` goes on with what is under way.
///
/// Source: own rule.
pub fn cancels_are_taken()
    ensures { CancelsAreTaken }
{}
