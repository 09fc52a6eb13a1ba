//! The words of the standard for operations, states and modes.
ghost use Rattle.std.specs.Prelude.{◌≡◌};
ghost use Rattle.json_bodies.specs.Words.{cancel_word, kind_word, notice_word, operation_type_word, power_word};
ghost use Rattle.json_bodies.specs.Words.{state_word, stop_word, way_word};
ghost use Rattle.json_views.specs.Words.{change_word};
ghost use Rattle.lcm_model.specs.Operations.{kind_of};

use lcm_events::{
    Ask, CancelMode, NoticeKind, OpKind, OpState, OperationType, ScaleWay, StopType, Verb,
};

/// The kind of an operation.
pub fn operation_word(ask: &Ask) -> &'static str
    ensures { result.now ≡ kind_word (kind_of ask.now) }
{
    match ask {
        Ask::Instantiate { .. } => kind_word(OpKind::Instantiate),
        Ask::Scale { .. } => kind_word(OpKind::Scale),
        Ask::ScaleToLevel(_) => kind_word(OpKind::ScaleToLevel),
        Ask::Heal { .. } => kind_word(OpKind::Heal),
        Ask::Operate { .. } => kind_word(OpKind::Operate),
        Ask::Terminate { .. } => kind_word(OpKind::Terminate),
    }
}

/// A kind of operation.
pub fn kind_word(kind: OpKind) -> &'static str
    ensures { result.now ≡ kind_word kind }
{
    match kind {
        OpKind::Instantiate => "INSTANTIATE",
        OpKind::Scale => "SCALE",
        OpKind::ScaleToLevel => "SCALE_TO_LEVEL",
        OpKind::Heal => "HEAL",
        OpKind::Operate => "OPERATE",
        OpKind::Terminate => "TERMINATE",
        OpKind::ChangeFlavour => "CHANGE_FLAVOUR",
    }
}

/// An operation type that a filter may name.
pub fn operation_type_word(operation: OperationType) -> &'static str
    ensures { result.now ≡ operation_type_word operation }
{
    match operation {
        OperationType::Of(kind) => kind_word(kind),
        OperationType::ChangeExtConn => "CHANGE_EXT_CONN",
        OperationType::ModifyInfo => "MODIFY_INFO",
    }
}

/// A kind of notification.
pub fn notice_word(kind: NoticeKind) -> &'static str
    ensures { result.now ≡ notice_word kind }
{
    match kind {
        NoticeKind::Occurrence => "VnfLcmOperationOccurrenceNotification",
        NoticeKind::Creation => "VnfIdentifierCreationNotification",
        NoticeKind::Deletion => "VnfIdentifierDeletionNotification",
    }
}

/// The state of an occurrence.
pub fn state_word(state: OpState) -> &'static str
    ensures { result.now ≡ state_word state }
{
    match state {
        OpState::Starting => "STARTING",
        OpState::Processing => "PROCESSING",
        OpState::Completed => "COMPLETED",
        OpState::FailedTemp => "FAILED_TEMP",
        OpState::Failed => "FAILED",
        OpState::RollingBack => "ROLLING_BACK",
        OpState::RolledBack => "ROLLED_BACK",
    }
}

/// How a cancel ends the work that is under way.
pub fn cancel_word(mode: CancelMode) -> &'static str
    ensures { result.now ≡ cancel_word mode }
{
    match mode {
        CancelMode::Graceful => "GRACEFUL",
        CancelMode::Forceful => "FORCEFUL",
    }
}

/// How what runs is stopped.
pub fn stop_word(stop: StopType) -> &'static str
    ensures { result.now ≡ stop_word stop }
{
    match stop {
        StopType::Forceful => "FORCEFUL",
        StopType::Graceful => "GRACEFUL",
    }
}

/// Started, or else stopped.
pub fn power_word(started: bool) -> &'static str
    ensures { result.now ≡ power_word started }
{
    if started { "STARTED" } else { "STOPPED" }
}

/// Out or in.
pub fn way_word(way: ScaleWay) -> &'static str
    ensures { result.now ≡ way_word way }
{
    match way {
        ScaleWay::Out => "SCALE_OUT",
        ScaleWay::In => "SCALE_IN",
    }
}

/// What a change did to its resource.
pub fn change_word(verb: Verb) -> &'static str
    ensures { result.now ≡ change_word verb }
{
    match verb {
        Verb::Create => "ADDED",
        Verb::Remove => "REMOVED",
        Verb::Start | Verb::Stop => "MODIFIED",
    }
}
