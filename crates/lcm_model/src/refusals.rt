//! Why an operation, a task or a deletion is refused.

use lcm_events::OpState;

/// Why an operation isn't begun. The order of the variants is the order of the refusals.
///
/// Source: SOL 003 5.4.4 to 5.4.10 (the tasks of an individual VNF instance); the order is an own rule.
#[derive(Clone, Copy, Debug)]
pub enum Refusal {
    /// The flavour isn't in the descriptor.
    UnknownFlavour,
    /// The instantiation level isn't in the descriptor.
    UnknownLevel,
    /// The aspect isn't in the descriptor.
    UnknownAspect,
    /// The number of steps is 0.
    NoSteps,
    /// An aspect is named twice.
    AspectTwice,
    /// A level is above its aspect's maximum.
    LevelAboveMaximum,
    /// The instance is INSTANTIATED.
    Instantiated,
    /// The instance is NOT_INSTANTIATED.
    NotInstantiated,
    /// An operation of the instance is ongoing.
    Ongoing,
    /// The instance isn't in step.
    OutOfStep,
    /// The instance is STOPPED.
    Stopped,
    /// The steps lead below level 0.
    BelowZero,
    /// The steps lead above the aspect's maximum.
    AboveMaximum,
    /// A name is that of no VNFC of which something stands.
    UnknownVnfc,
    /// The operation aims at what is already so.
    NothingToDo,
    /// A VDU would have more instances than its maximum.
    AboveProfile,
    /// More resources would stand than an instance may have.
    TooManyResources,
}

/// Why a task on an occurrence is refused.
///
/// Source: SOL 003 5.4.14 to 5.4.17 (Retry, Rollback, Fail, Cancel operation task).
#[derive(Clone, Copy)]
pub enum TaskRefusal {
    /// The operation has no such task.
    NotSupported,
    /// The occurrence is in this state.
    WrongState(OpState),
}
