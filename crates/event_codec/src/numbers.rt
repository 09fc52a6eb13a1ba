//! The numbers that stand for words.
ghost use Rattle.std.specs.Prelude.{◌≡◌};
ghost use Rattle.event_codec.specs.Numbers as number;

use lcm_events::{
    CancelMode, DefKind, NoticeKind, OpKind, OpState, OperationType, PostOutcome, Role, ScaleWay,
    StopType, Verb, Way,
};

pub(crate) fn role(word: Role) -> u8
    ensures { result ≡ number.role word }
{
    match word {
        Role::Orchestrator => 0,
        Role::Element => 1,
    }
}

pub(crate) fn cancel_mode(word: CancelMode) -> u8
    ensures { result ≡ number.cancel_mode word }
{
    match word {
        CancelMode::Graceful => 0,
        CancelMode::Forceful => 1,
    }
}

pub(crate) fn op_state(word: OpState) -> u8
    ensures { result ≡ number.op_state word }
{
    match word {
        OpState::Starting => 0,
        OpState::Processing => 1,
        OpState::Completed => 2,
        OpState::FailedTemp => 3,
        OpState::Failed => 4,
        OpState::RollingBack => 5,
        OpState::RolledBack => 6,
    }
}

pub(crate) fn way(word: Way) -> u8
    ensures { result ≡ number.way word }
{
    match word {
        Way::Forward => 0,
        Way::Undo => 1,
    }
}

pub(crate) fn verb(word: Verb) -> u8
    ensures { result ≡ number.verb word }
{
    match word {
        Verb::Create => 0,
        Verb::Remove => 1,
        Verb::Start => 2,
        Verb::Stop => 3,
    }
}

pub(crate) fn def_kind(word: DefKind) -> u8
    ensures { result ≡ number.def_kind word }
{
    match word {
        DefKind::Link => 0,
        DefKind::Storage => 1,
        DefKind::Compute => 2,
        DefKind::Port => 3,
    }
}

pub(crate) fn scale_way(word: ScaleWay) -> u8
    ensures { result ≡ number.scale_way word }
{
    match word {
        ScaleWay::Out => 0,
        ScaleWay::In => 1,
    }
}

pub(crate) fn post_outcome(word: PostOutcome) -> u8
    ensures { result ≡ number.post_outcome word }
{
    match word {
        PostOutcome::Delivered => 0,
        PostOutcome::NotTaken => 1,
    }
}

pub(crate) fn notice_kind(word: NoticeKind) -> u8
    ensures { result ≡ number.notice_kind word }
{
    match word {
        NoticeKind::Occurrence => 0,
        NoticeKind::Creation => 1,
        NoticeKind::Deletion => 2,
    }
}

pub(crate) fn terminate_mode(word: StopType) -> u8
    ensures { result ≡ number.terminate_mode word }
{
    match word {
        StopType::Graceful => 0,
        StopType::Forceful => 1,
    }
}

pub(crate) fn stop_type(word: Option<StopType>) -> u8
    ensures { result ≡ number.stop_type word }
{
    match word {
        None => 0,
        Some(StopType::Forceful) => 1,
        Some(StopType::Graceful) => 2,
    }
}

pub(crate) fn started(word: bool) -> u8
    ensures { result ≡ number.started word }
{
    if word { 0 } else { 1 }
}

pub(crate) fn operation_type(word: OperationType) -> u8
    ensures { result ≡ number.operation_type word }
{
    match word {
        OperationType::Of(OpKind::Instantiate) => 1,
        OperationType::Of(OpKind::Scale) => 2,
        OperationType::Of(OpKind::ScaleToLevel) => 3,
        OperationType::Of(OpKind::Heal) => 4,
        OperationType::Of(OpKind::Operate) => 5,
        OperationType::Of(OpKind::Terminate) => 6,
        OperationType::Of(OpKind::ChangeFlavour) => 7,
        OperationType::ChangeExtConn => 8,
        OperationType::ModifyInfo => 9,
    }
}
