//! Members whose value is a word of the standard.
ghost use Rattle.std.specs.Prelude.{◌≡◌, false};
ghost use Rattle.json_bodies.specs.Body.{cancel_mode_in, cancel_mode_text};
ghost use Rattle.json_bodies.specs.Forms.{notice_in, notice_text, operation_type_in, operation_type_text, power_in};
ghost use Rattle.json_bodies.specs.Forms.{power_text, state_in, state_text, stop_in, stop_text, way_in, way_text};

use crate::forms::Form;
use lcm_events::{CancelMode, NoticeKind, OpKind, OpState, OperationType, ScaleWay, StopType};
use serde_json::Value;
use std::alloc::{AllocError, Global};

/// A way to cancel, by its word.
pub struct AnyCancelMode {}

impl Form<CancelMode> for AnyCancelMode {
    ghost says = { λ f d. cancel_mode_in d };

    ghost asks_memory = { λ f. false };

    fn fits(&self, value: &Value) -> bool {
        match value.as_str() {
            Some(text) => cancel_mode_from(text).is_some(),
            None => false,
        }
    }

    fn read(&self, _alloc: Global, value: &Value) -> Result<Option<CancelMode>, AllocError> {
        Ok(value.as_str().and_then(|text| cancel_mode_from(text)))
    }
}

fn cancel_mode_from(text: &str) -> Option<CancelMode>
    ensures { result ≡ cancel_mode_text text.now }
{
    match text {
        "GRACEFUL" => Some(CancelMode::Graceful),
        "FORCEFUL" => Some(CancelMode::Forceful),
        _ => None,
    }
}

/// Out or in, by its word.
pub struct AnyScaleWay {}

impl Form<ScaleWay> for AnyScaleWay {
    ghost says = { λ f d. way_in d };

    ghost asks_memory = { λ f. false };

    fn fits(&self, value: &Value) -> bool {
        match value.as_str() {
            Some(text) => way_from(text).is_some(),
            None => false,
        }
    }

    fn read(&self, _alloc: Global, value: &Value) -> Result<Option<ScaleWay>, AllocError> {
        Ok(value.as_str().and_then(|text| way_from(text)))
    }
}

fn way_from(text: &str) -> Option<ScaleWay>
    ensures { result ≡ way_text text.now }
{
    match text {
        "SCALE_OUT" => Some(ScaleWay::Out),
        "SCALE_IN" => Some(ScaleWay::In),
        _ => None,
    }
}

/// A way to stop, by its word.
pub struct AnyStopType {}

impl Form<StopType> for AnyStopType {
    ghost says = { λ f d. stop_in d };

    ghost asks_memory = { λ f. false };

    fn fits(&self, value: &Value) -> bool {
        match value.as_str() {
            Some(text) => stop_from(text).is_some(),
            None => false,
        }
    }

    fn read(&self, _alloc: Global, value: &Value) -> Result<Option<StopType>, AllocError> {
        Ok(value.as_str().and_then(|text| stop_from(text)))
    }
}

fn stop_from(text: &str) -> Option<StopType>
    ensures { result ≡ stop_text text.now }
{
    match text {
        "FORCEFUL" => Some(StopType::Forceful),
        "GRACEFUL" => Some(StopType::Graceful),
        _ => None,
    }
}

/// Started or stopped, by its word: whether it is started.
pub struct AnyPower {}

impl Form<bool> for AnyPower {
    ghost says = { λ f d. power_in d };

    ghost asks_memory = { λ f. false };

    fn fits(&self, value: &Value) -> bool {
        match value.as_str() {
            Some(text) => started_from(text).is_some(),
            None => false,
        }
    }

    fn read(&self, _alloc: Global, value: &Value) -> Result<Option<bool>, AllocError> {
        Ok(value.as_str().and_then(|text| started_from(text)))
    }
}

fn started_from(text: &str) -> Option<bool>
    ensures { result ≡ power_text text.now }
{
    match text {
        "STARTED" => Some(true),
        "STOPPED" => Some(false),
        _ => None,
    }
}

/// A kind of notification, by its word.
#[derive(Drop)]
pub struct AnyNoticeKind {}

impl Form<NoticeKind> for AnyNoticeKind {
    ghost says = { λ f d. notice_in d };

    ghost asks_memory = { λ f. false };

    fn fits(&self, value: &Value) -> bool {
        match value.as_str() {
            Some(text) => notice_from(text).is_some(),
            None => false,
        }
    }

    fn read(&self, _alloc: Global, value: &Value) -> Result<Option<NoticeKind>, AllocError> {
        Ok(value.as_str().and_then(|text| notice_from(text)))
    }
}

fn notice_from(text: &str) -> Option<NoticeKind>
    ensures { result ≡ notice_text text.now }
{
    match text {
        "VnfLcmOperationOccurrenceNotification" => Some(NoticeKind::Occurrence),
        "VnfIdentifierCreationNotification" => Some(NoticeKind::Creation),
        "VnfIdentifierDeletionNotification" => Some(NoticeKind::Deletion),
        _ => None,
    }
}

/// An operation type, by its word.
#[derive(Drop)]
pub struct AnyOperationType {}

impl Form<OperationType> for AnyOperationType {
    ghost says = { λ f d. operation_type_in d };

    ghost asks_memory = { λ f. false };

    fn fits(&self, value: &Value) -> bool {
        match value.as_str() {
            Some(text) => operation_type_from(text).is_some(),
            None => false,
        }
    }

    fn read(&self, _alloc: Global, value: &Value) -> Result<Option<OperationType>, AllocError> {
        Ok(value.as_str().and_then(|text| operation_type_from(text)))
    }
}

fn operation_type_from(text: &str) -> Option<OperationType>
    ensures { result ≡ operation_type_text text.now }
{
    match text {
        "INSTANTIATE" => Some(OperationType::Of(OpKind::Instantiate)),
        "SCALE" => Some(OperationType::Of(OpKind::Scale)),
        "SCALE_TO_LEVEL" => Some(OperationType::Of(OpKind::ScaleToLevel)),
        "HEAL" => Some(OperationType::Of(OpKind::Heal)),
        "OPERATE" => Some(OperationType::Of(OpKind::Operate)),
        "TERMINATE" => Some(OperationType::Of(OpKind::Terminate)),
        "CHANGE_FLAVOUR" => Some(OperationType::Of(OpKind::ChangeFlavour)),
        "CHANGE_EXT_CONN" => Some(OperationType::ChangeExtConn),
        "MODIFY_INFO" => Some(OperationType::ModifyInfo),
        _ => None,
    }
}

/// A state of an occurrence, by its word.
#[derive(Drop)]
pub struct AnyOpState {}

impl Form<OpState> for AnyOpState {
    ghost says = { λ f d. state_in d };

    ghost asks_memory = { λ f. false };

    fn fits(&self, value: &Value) -> bool {
        match value.as_str() {
            Some(text) => state_from(text).is_some(),
            None => false,
        }
    }

    fn read(&self, _alloc: Global, value: &Value) -> Result<Option<OpState>, AllocError> {
        Ok(value.as_str().and_then(|text| state_from(text)))
    }
}

fn state_from(text: &str) -> Option<OpState>
    ensures { result ≡ state_text text.now }
{
    match text {
        "STARTING" => Some(OpState::Starting),
        "PROCESSING" => Some(OpState::Processing),
        "COMPLETED" => Some(OpState::Completed),
        "FAILED_TEMP" => Some(OpState::FailedTemp),
        "FAILED" => Some(OpState::Failed),
        "ROLLING_BACK" => Some(OpState::RollingBack),
        "ROLLED_BACK" => Some(OpState::RolledBack),
        _ => None,
    }
}
