//! The states of an operation occurrence, and who may ask for what in them.

/// The state of an operation occurrence.
///
/// Source: SOL 003 5.6.2 (States and state transitions of a VNF LCM operation occurrence).
#[derive(Clone, Copy, PartialEq, Eq)]
pub enum OpState {
    /// STARTING: the grant is being asked for.
    Starting,
    /// PROCESSING: the changes are being made.
    Processing,
    /// COMPLETED: every change is made.
    Completed,
    /// FAILED_TEMP: work has stopped, and a task may take it up again.
    FailedTemp,
    /// FAILED: given up.
    Failed,
    /// ROLLING_BACK: the changes are being undone.
    RollingBack,
    /// ROLLED_BACK: no change is left.
    RolledBack,
}

/// How a cancel ends the work that is under way.
///
/// Source: SOL 003 5.5.2.14 (CancelMode).
#[derive(Clone, Copy, PartialEq, Eq)]
pub enum CancelMode {
    /// GRACEFUL: the attempts under way are waited for.
    Graceful,
    /// FORCEFUL: the attempts under way are aborted.
    Forceful,
}

/// What may be asked of an occurrence.
///
/// Source: SOL 003 5.4.14 to 5.4.17 (Retry, Rollback, Fail, Cancel operation task).
#[derive(Clone, Copy, PartialEq, Eq)]
pub enum Task {
    /// Take the work up again.
    Retry,
    /// Undo what was done.
    Rollback,
    /// Give the operation up.
    Fail,
    /// Stop the work under way.
    Cancel,
}

/// Who asks: the NFV orchestrator or the element manager.
///
/// Source: SOL 003 clause 5 for the orchestrator, SOL 002 clause 5 for the element manager.
#[derive(Clone, Copy, PartialEq, Eq)]
pub enum Role {
    /// The NFV orchestrator.
    Orchestrator,
    /// The element manager.
    Element,
}
