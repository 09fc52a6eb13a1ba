//! Words: each is one byte with the number that stands for it.
ghost use Rattle.std.specs.Prelude.{◌≡◌};
ghost use Rattle.event_codec.specs.Gives.{Gives};
ghost use Rattle.event_codec.specs.Readers.{role_at, cancel_mode_at, terminate_mode_at, stop_type_at, started_at};
ghost use Rattle.event_codec.specs.Readers.{op_state_at, way_at, verb_at, def_kind_at, scale_way_at, post_outcome_at};
ghost use Rattle.event_codec.specs.Readers.{notice_kind_at, operation_type_at, moved_at};

use crate::fault::DecodeFault;
use crate::input::Input;
use lcm_events::{
    CancelMode, DefKind, NoticeKind, OpKind, OpState, OperationType, PostOutcome, Role, ScaleWay,
    StopType, Verb, Way,
};

/// Who asks.
#[tactic(auto, unfolding(crate::specs::Readers::role_at))]
pub(crate) fn role(input: &mut Input) -> Result<Role, DecodeFault>
    ensures { Gives input.new result (role_at input.old) }
{
    match input.u8()? {
        0 => Ok(Role::Orchestrator),
        1 => Ok(Role::Element),
        _ => Err(DecodeFault::NotEvent),
    }
}

/// How a cancel ends the work under way.
#[tactic(auto, unfolding(crate::specs::Readers::cancel_mode_at))]
pub(crate) fn cancel_mode(input: &mut Input) -> Result<CancelMode, DecodeFault>
    ensures { Gives input.new result (cancel_mode_at input.old) }
{
    match input.u8()? {
        0 => Ok(CancelMode::Graceful),
        1 => Ok(CancelMode::Forceful),
        _ => Err(DecodeFault::NotEvent),
    }
}

/// How a termination stops what runs.
#[tactic(auto, unfolding(crate::specs::Readers::terminate_mode_at))]
pub(crate) fn terminate_mode(input: &mut Input) -> Result<StopType, DecodeFault>
    ensures { Gives input.new result (terminate_mode_at input.old) }
{
    match input.u8()? {
        0 => Ok(StopType::Graceful),
        1 => Ok(StopType::Forceful),
        _ => Err(DecodeFault::NotEvent),
    }
}

/// How an OPERATE stops what runs, where it says so.
#[tactic(auto, unfolding(crate::specs::Readers::stop_type_at))]
pub(crate) fn stop_type(input: &mut Input) -> Result<Option<StopType>, DecodeFault>
    ensures { Gives input.new result (stop_type_at input.old) }
{
    match input.u8()? {
        0 => Ok(None),
        1 => Ok(Some(StopType::Forceful)),
        2 => Ok(Some(StopType::Graceful)),
        _ => Err(DecodeFault::NotEvent),
    }
}

/// Whether an OPERATE starts.
#[tactic(auto, unfolding(crate::specs::Readers::started_at))]
pub(crate) fn started(input: &mut Input) -> Result<bool, DecodeFault>
    ensures { Gives input.new result (started_at input.old) }
{
    match input.u8()? {
        0 => Ok(true),
        1 => Ok(false),
        _ => Err(DecodeFault::NotEvent),
    }
}

/// The state of an occurrence.
#[tactic(auto, unfolding(crate::specs::Readers::op_state_at))]
pub(crate) fn op_state(input: &mut Input) -> Result<OpState, DecodeFault>
    ensures { Gives input.new result (op_state_at input.old) }
{
    match input.u8()? {
        0 => Ok(OpState::Starting),
        1 => Ok(OpState::Processing),
        2 => Ok(OpState::Completed),
        3 => Ok(OpState::FailedTemp),
        4 => Ok(OpState::Failed),
        5 => Ok(OpState::RollingBack),
        6 => Ok(OpState::RolledBack),
        _ => Err(DecodeFault::NotEvent),
    }
}

/// Whether an attempt makes or undoes.
#[tactic(auto, unfolding(crate::specs::Readers::way_at))]
pub(crate) fn way(input: &mut Input) -> Result<Way, DecodeFault>
    ensures { Gives input.new result (way_at input.old) }
{
    match input.u8()? {
        0 => Ok(Way::Forward),
        1 => Ok(Way::Undo),
        _ => Err(DecodeFault::NotEvent),
    }
}

/// What a change does.
#[tactic(auto, unfolding(crate::specs::Readers::verb_at))]
pub(crate) fn verb(input: &mut Input) -> Result<Verb, DecodeFault>
    ensures { Gives input.new result (verb_at input.old) }
{
    match input.u8()? {
        0 => Ok(Verb::Create),
        1 => Ok(Verb::Remove),
        2 => Ok(Verb::Start),
        3 => Ok(Verb::Stop),
        _ => Err(DecodeFault::NotEvent),
    }
}

/// What a definition names.
#[tactic(auto, unfolding(crate::specs::Readers::def_kind_at))]
pub(crate) fn def_kind(input: &mut Input) -> Result<DefKind, DecodeFault>
    ensures { Gives input.new result (def_kind_at input.old) }
{
    match input.u8()? {
        0 => Ok(DefKind::Link),
        1 => Ok(DefKind::Storage),
        2 => Ok(DefKind::Compute),
        3 => Ok(DefKind::Port),
        _ => Err(DecodeFault::NotEvent),
    }
}

/// Out or in.
#[tactic(auto, unfolding(crate::specs::Readers::scale_way_at))]
pub(crate) fn scale_way(input: &mut Input) -> Result<ScaleWay, DecodeFault>
    ensures { Gives input.new result (scale_way_at input.old) }
{
    match input.u8()? {
        0 => Ok(ScaleWay::Out),
        1 => Ok(ScaleWay::In),
        _ => Err(DecodeFault::NotEvent),
    }
}

/// How a post ended.
#[tactic(auto, unfolding(crate::specs::Readers::post_outcome_at))]
pub(crate) fn post_outcome(input: &mut Input) -> Result<PostOutcome, DecodeFault>
    ensures { Gives input.new result (post_outcome_at input.old) }
{
    match input.u8()? {
        0 => Ok(PostOutcome::Delivered),
        1 => Ok(PostOutcome::NotTaken),
        _ => Err(DecodeFault::NotEvent),
    }
}

/// The kind of a notice.
#[tactic(auto, unfolding(crate::specs::Readers::notice_kind_at))]
pub(crate) fn notice_kind(input: &mut Input) -> Result<NoticeKind, DecodeFault>
    ensures { Gives input.new result (notice_kind_at input.old) }
{
    match input.u8()? {
        0 => Ok(NoticeKind::Occurrence),
        1 => Ok(NoticeKind::Creation),
        2 => Ok(NoticeKind::Deletion),
        _ => Err(DecodeFault::NotEvent),
    }
}

/// The operation that a filter names.
#[tactic(auto, unfolding(crate::specs::Readers::operation_type_at))]
pub(crate) fn operation_type(input: &mut Input) -> Result<OperationType, DecodeFault>
    ensures { Gives input.new result (operation_type_at input.old) }
{
    match input.u8()? {
        1 => Ok(OperationType::Of(OpKind::Instantiate)),
        2 => Ok(OperationType::Of(OpKind::Scale)),
        3 => Ok(OperationType::Of(OpKind::ScaleToLevel)),
        4 => Ok(OperationType::Of(OpKind::Heal)),
        5 => Ok(OperationType::Of(OpKind::Operate)),
        6 => Ok(OperationType::Of(OpKind::Terminate)),
        7 => Ok(OperationType::Of(OpKind::ChangeFlavour)),
        8 => Ok(OperationType::ChangeExtConn),
        9 => Ok(OperationType::ModifyInfo),
        _ => Err(DecodeFault::NotEvent),
    }
}

/// The state to which an occurrence moves, which is never STARTING.
#[tactic(auto, unfolding(crate::specs::Readers::moved_at))]
pub(crate) fn moved(input: &mut Input) -> Result<OpState, DecodeFault>
    ensures { Gives input.new result (moved_at input.old) }
{
    match op_state(input)? {
        OpState::Starting => Err(DecodeFault::NotEvent),
        to => Ok(to),
    }
}
