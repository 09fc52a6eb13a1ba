//! The refusals of what the model refuses.
ghost use Rattle.std.specs.Prelude.{◌≡◌, IfOk};
ghost use Rattle.lcm_api.specs.Refusals.{refusal_status, refusal_text};
ghost use Rattle.lcm_replies.specs.Replies.{refusal};

use lcm_model::Refusal;
use lcm_replies::{Reply, refusal};
use std::alloc::{AllocError, Global};

/// The refusal for what the model refuses, and whether the connection ends with it.
///
/// Source: SOL 003 5.4.3 to 5.4.10; the statuses and texts are own rules, docs/FORMATS.md.
pub fn refusal_for(alloc: Global, why: Refusal, last: bool) -> Result<Reply, AllocError>
    ensures { IfOk result (λ reply. reply ≡ refusal (refusal_status why) (refusal_text why) last) }
{
    refusal(alloc, refusal_status(why), refusal_text(why), last)
}

/// The status of what the model refuses.
fn refusal_status(why: Refusal) -> u16
    ensures { result ≡ refusal_status why }
{
    match why {
        Refusal::Instantiated
        | Refusal::NotInstantiated
        | Refusal::Ongoing
        | Refusal::OutOfStep
        | Refusal::Stopped => 409,
        Refusal::TooManyResources => 507,
        _ => 422,
    }
}

/// The text of what the model refuses.
fn refusal_text(why: Refusal) -> &'static str
    ensures { result.now ≡ refusal_text why }
{
    match why {
        Refusal::UnknownFlavour => "flavourId is not in the descriptor",
        Refusal::UnknownLevel => "instantiationLevelId is not in the descriptor",
        Refusal::UnknownAspect => "aspectId is not in the descriptor",
        Refusal::NoSteps => "numberOfSteps is 0",
        Refusal::AspectTwice => "scaleInfo names an aspect twice",
        Refusal::LevelAboveMaximum => "scaleLevel is above the maximum",
        Refusal::Instantiated => "instance is INSTANTIATED",
        Refusal::NotInstantiated => "instance is not INSTANTIATED",
        Refusal::Ongoing => "an operation is ongoing",
        Refusal::OutOfStep => "instance is out of step",
        Refusal::Stopped => "instance is STOPPED",
        Refusal::BelowZero => "scale level below zero",
        Refusal::AboveMaximum => "scale level above the maximum",
        Refusal::UnknownVnfc => "vnfcInstanceId names no VNFC",
        Refusal::NothingToDo => "nothing to do",
        Refusal::AboveProfile => "instances above the maximum of the VDU",
        Refusal::TooManyResources => "too many resources",
    }
}
