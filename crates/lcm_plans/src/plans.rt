//! The plan of an ask, over what stands.

ghost use Rattle.std.specs.Prelude.{◌≡◌, IfErr, IfOk, None, Some};
ghost use Rattle.lcm_model.specs.Descriptors.{IsHoldingOf, IsValid};
ghost use Rattle.lcm_model.specs.Levels.{target};
ghost use Rattle.lcm_model.specs.Plans.{plan};
ghost use Rattle.change_planner.specs.Inventories.{case_of};
ghost use Rattle.change_planner.specs.Rolls.{CanBePlanned};
ghost use Rattle.lcm_plans.specs.Cases.{refusal_over, standing_refusal, told_as};

use crate::aims::target_in;
use crate::refusals::{scale_refusal_in, state_refusal_over};
use change_planner::PlanRefusal;
use lcm_events::{Ask, Changes, Holding, Levels, Listed, Vnfd};
use lcm_model::Refusal;
use std::alloc::{AllocError, Global};

/// How a plan's refusal is told; want of memory refuses nothing.
fn refusal_of(why: &PlanRefusal) -> Option<Refusal>
    ensures { result ≡ told_as why.now }
{
    match why {
        PlanRefusal::UnknownVnfc(_) => Some(Refusal::UnknownVnfc),
        PlanRefusal::NothingToDo => Some(Refusal::NothingToDo),
        PlanRefusal::AboveProfile(_) => Some(Refusal::AboveProfile),
        PlanRefusal::TooMany(_) => Some(Refusal::TooManyResources),
        PlanRefusal::Memory => None,
    }
}

/// The plan of an ask over what stands, with the levels that it aims at, or why it is refused.
fn plan_over(
    alloc: Global,
    vnfd: &Vnfd,
    holding: &Holding,
    ask: &Ask,
    to: &Levels,
) -> Result<Result<Changes, Refusal>, AllocError>
    requires can { CanBePlanned vnfd.now holding.now to.now }
    requires target { to.now ≡ target vnfd.now holding.now.levels ask.now }
    ensures planned { IfOk result (λ answer. IfOk answer (λ changes. changes
        ≡ plan (case_of vnfd.now holding.now ask.now to.now))) }
    ensures accepted { IfOk result (λ answer. IfOk answer
        (λ changes. refusal_over vnfd.now holding.now ask.now ≡ None)) }
    ensures refused { IfOk result (λ answer. IfErr answer
        (λ why. refusal_over vnfd.now holding.now ask.now ≡ Some why)) }
{
    if let Some(wrong) = scale_refusal_in(vnfd, holding.levels.as_slice(), ask) {
        return Ok(Err(wrong));
    }
    match change_planner::plan(alloc, vnfd, holding, ask, to) {
        Ok(changes) => Ok(Ok(changes)),
        Err(why) => match refusal_of(&why) {
            Some(wrong) => Ok(Err(wrong)),
            None => Err(AllocError),
        },
    }
}

/// The plan of an ask over what stands, or why it is refused.
fn plan_aimed(
    alloc: Global,
    vnfd: &Vnfd,
    holding: &Holding,
    ask: &Ask,
) -> Result<Result<Changes, Refusal>, AllocError>
    requires valid { IsValid vnfd.now }
    requires held { IsHoldingOf vnfd.now holding.now }
    ensures planned { IfOk result (λ answer. IfOk answer (λ changes. changes
        ≡ plan (case_of vnfd.now holding.now ask.now (target vnfd.now holding.now.levels ask.now)))) }
    ensures accepted { IfOk result (λ answer. IfOk answer
        (λ changes. refusal_over vnfd.now holding.now ask.now ≡ None)) }
    ensures refused { IfOk result (λ answer. IfErr answer
        (λ why. refusal_over vnfd.now holding.now ask.now ≡ Some why)) }
{
    let to = Listed::of(target_in(alloc, vnfd, holding.levels.as_slice(), ask)?);
    plan_over(alloc, vnfd, holding, ask, &to)
}

/// The plan of an ask over what stands, or why it is refused: by the instance's state, where `busy` says that an
/// operation of it goes on, by what stands, or by what is planned, in this order. That the ask's content isn't refused
/// is asked apart.
///
/// Source: docs/MODEL.md, "Plans" and "Refusals".
pub fn plan_standing(
    alloc: Global,
    vnfd: &Vnfd,
    holding: &Holding,
    busy: bool,
    ask: &Ask,
) -> Result<Result<Changes, Refusal>, AllocError>
    requires valid { IsValid vnfd.now }
    requires held { IsHoldingOf vnfd.now holding.now }
    ensures planned { IfOk result (λ answer. IfOk answer (λ changes. changes
        ≡ plan (case_of vnfd.now holding.now ask.now (target vnfd.now holding.now.levels ask.now)))) }
    ensures accepted { IfOk result (λ answer. IfOk answer
        (λ changes. standing_refusal vnfd.now holding.now busy ask.now ≡ None)) }
    ensures refused { IfOk result (λ answer. IfErr answer
        (λ why. standing_refusal vnfd.now holding.now busy ask.now ≡ Some why)) }
{
    match state_refusal_over(vnfd, holding, busy, ask) {
        Some(wrong) => Ok(Err(wrong)),
        None => plan_aimed(alloc, vnfd, holding, ask),
    }
}
