//! The plan of an operation over what stands, or why there is none.

ghost use Rattle.std.specs.Prelude.{◌≡◌, ◌*◌, ◌≤◌, ◌⊎◌, ◌&&◌, ◌==◌, Err, IfErr, IfOk, IfSome, None, Some, false};
ghost use Rattle.std.specs.Prelude.{length, map, nat_lt, true};
ghost use Rattle.std.specs.Cmp.Lexicographic.{pointwise};
ghost use Rattle.std.specs.List.{enumerate_from, list_all};
ghost use Rattle.lcm_model.specs.Descriptors.{IsValid, are_levels_of};
ghost use Rattle.lcm_model.specs.Plans.{plan};
ghost use Rattle.lcm_model.specs.Vnfcs.{vdu_numbers};
ghost use Rattle.change_planner.specs.Inventories.{case_of};
ghost use Rattle.change_planner.specs.Planning.{FitsRecord, IsTooMany, above_profile, aims_at_present, first_refusal};
ghost use Rattle.change_planner.specs.Planning.{is_oversized, refusal, vdu_above};
ghost use Rattle.change_planner.specs.Rolls.{CanBePlanned, are_rising, case_in, is_small, links_to_make, parts_made};
ghost use Rattle.change_planner.specs.Rolls.{parts_of, roll_of};

use crate::plans::{changes_in, links_in};
use crate::refusals::PlanRefusal;
use crate::rolls::{PlanCase, Roll, rolls_in, size_of_machine, unknown_in};
use lcm_events::{Ask, Change, Changes, Holding, Levels, Listed, Vnfd};
use lcm_model::count_in;
use std::alloc::Global;

/// Definitions that may stand of an instance.
const MOST_DEFINITIONS: u64 = 2_500;

/// Whether two lists of levels are equal.
fn are_same(a: &[u32], b: &[u32]) -> bool
    ensures { result ≡ pointwise ◌==◌ a.now b.now }
{
    a == b
}

/// Whether an ask aims at what is already so.
fn aims_at_present_in(case: &PlanCase) -> bool
    ensures { result ≡ aims_at_present case.now.holding.now case.now.ask.now case.now.to.now }
{
    match case.ask {
        Ask::ScaleToLevel(_) => are_same(case.to, case.holding.levels.as_slice()),
        Ask::Operate { started, .. } => *started == case.holding.started,
        _ => false,
    }
}

/// The number of the first VDU that would have more machines than its maximum.
fn vdu_above_in(vnfd: &Vnfd, to: &[u32]) -> Option<u16>
    requires valid { IsValid vnfd.now }
    requires levels { are_levels_of vnfd.now to.now ≡ true }
    ensures { result ≡ vdu_above vnfd.now to.now }
{
    for (number, vdu) in vnfd.vdus.as_slice().iter().enumerate() {
        if vdu.maximum < count_in(vnfd, number as u16, to) {
            return Some(number as u16);
        }
    }
    None
}

/// The number of the first VDU that an ask would lead above its maximum.
fn above_in(case: &PlanCase) -> Option<u16>
    requires { CanBePlanned case.now.vnfd.now case.now.holding.now case.now.to.now }
    ensures { result ≡ above_profile case.now.vnfd.now case.now.ask.now case.now.to.now }
{
    match case.ask {
        Ask::Terminate { .. } => None,
        _ => vdu_above_in(case.vnfd, case.to),
    }
}

/// Why there is no plan, but for its size.
fn first_refusal_in(case: &PlanCase) -> Option<PlanRefusal>
    requires { CanBePlanned case.now.vnfd.now case.now.holding.now case.now.to.now }
    ensures { result ≡ first_refusal case.now.vnfd.now case.now.holding.now case.now.ask.now case.now.to.now }
{
    if let Some(place) = unknown_in(case) {
        return Some(PlanRefusal::UnknownVnfc(place));
    }
    if aims_at_present_in(case) {
        return Some(PlanRefusal::NothingToDo);
    }
    match above_in(case) {
        Some(vdu) => Some(PlanRefusal::AboveProfile(vdu)),
        None => None,
    }
}

/// How many definitions the new machines of a VDU have.
#[tactic(auto, using(crate::proofs::RangeLaws::parts_bound))]
fn parts_in(vnfd: &Vnfd, vdu: u16, missing: u32) -> u64
    requires valid { IsValid vnfd.now }
    requires small { missing ≤ 1048625535 }
    ensures value { result ≡ missing * parts_of vnfd.now vdu }
    ensures bound { result ≤ 403720830975 }
{
    missing as u64 * size_of_machine(vnfd, vdu) as u64
}

/// How many definitions the new machines have.
#[tactic(auto, using(crate::proofs::SearchLaws::missing_at))]
fn count_made(vnfd: &Vnfd, rolls: &[Roll]) -> u64
    requires valid { IsValid vnfd.now }
    requires small { list_all is_small rolls.now ≡ true }
    requires few { length rolls.now ≤ 64 }
    ensures value { result ≡ parts_made vnfd.now (enumerate_from 0 rolls.now) }
    ensures bound { result ≤ 25838133182400 }
{
    let mut count = 0;
    for (vdu, roll) in rolls.iter().enumerate() {
        count += parts_in(vnfd, vdu as u16, roll.missing);
    }
    count
}

/// Whether so many definitions are too many, where so many of them are made.
fn is_too_many(made: u64, size: u64) -> bool
    ensures { result ≡ (nat_lt 0 made && nat_lt 2500 size) }
{
    0 < made && MOST_DEFINITIONS < size
}

/// The plan of a case that isn't refused but for its size, from the rolls and the links to make.
fn sized_plan(
    alloc: Global,
    case: &PlanCase,
    rolls: &[Roll],
    links: &[u16],
) -> Result<Vec<Change>, PlanRefusal>
    requires can { CanBePlanned case.now.vnfd.now case.now.holding.now case.now.to.now }
    requires rolls { rolls.now ≡ map (roll_of (case_in case.now)) (vdu_numbers case.now.vnfd.now) }
    requires small { list_all is_small rolls.now ≡ true }
    requires few { length rolls.now ≤ 64 }
    requires rising { are_rising rolls.now ≡ true }
    requires links { links.now ≡ links_to_make case.now.vnfd.now case.now.ask.now case.now.holding.now.items }
    ensures planned { IfOk result (λ changes. changes.items ≡ plan (case_in case.now)) }
    ensures fits { IfOk result (λ changes. is_oversized case.now.vnfd.now case.now.holding.now case.now.ask.now
        case.now.to.now ≡ false) }
    ensures small { IfOk result (λ changes. length changes.items ≤ 5000) }
    ensures refused { IfErr result (λ why. (why ≡ PlanRefusal.Memory)
        ⊎ IsTooMany case.now.vnfd.now case.now.holding.now case.now.ask.now case.now.to.now why) }
{
    let items = case.holding.items.as_slice();
    let made = links.len() as u64 + count_made(case.vnfd, rolls);
    let size = items.len() as u64 + made;
    let too_many = is_too_many(made, size);
    if too_many {
        return Err(PlanRefusal::TooMany(size));
    }
    match changes_in(alloc, case.vnfd, case.ask, rolls, items, links) {
        Ok(changes) => Ok(changes),
        Err(_) => Err(PlanRefusal::Memory),
    }
}

/// The plan of a case, or why there is none.
fn plan_in(alloc: Global, case: &PlanCase) -> Result<Vec<Change>, PlanRefusal>
    requires { CanBePlanned case.now.vnfd.now case.now.holding.now case.now.to.now }
    ensures first { IfSome (first_refusal case.now.vnfd.now case.now.holding.now case.now.ask.now case.now.to.now)
        (λ why. result ≡ Err why) }
    ensures planned { IfOk result (λ changes. changes.items ≡ plan (case_in case.now)) }
    ensures accepted { IfOk result (λ changes. refusal case.now.vnfd.now case.now.holding.now case.now.ask.now
        case.now.to.now ≡ None) }
    ensures refused { IfErr result (λ why. (why ≡ PlanRefusal.Memory)
        ⊎ (refusal case.now.vnfd.now case.now.holding.now case.now.ask.now case.now.to.now ≡ Some why)) }
    ensures small { IfOk result (λ changes. length changes.items ≤ 5000) }
{
    if let Some(why) = first_refusal_in(case) {
        return Err(why);
    }
    let Ok(rolls) = rolls_in(alloc, case) else {
        return Err(PlanRefusal::Memory);
    };
    let Ok(links) = links_in(alloc, case.vnfd, case.ask, case.holding.items.as_slice()) else {
        return Err(PlanRefusal::Memory);
    };
    sized_plan(alloc, case, rolls.as_slice(), links.as_slice())
}

/// The changes that lead an instance to what an ask aims at, over what stands of it: which, and in which order, is the
/// definition of docs/MODEL.md, "Plans". `to` has the levels that the ask aims at.
///
/// Refusals, in this order: `UnknownVnfc` exactly where HEAL names a machine of which nothing stands; `NothingToDo`
/// exactly where SCALE_TO_LEVEL aims at the present levels or OPERATE at the present state; `AboveProfile` exactly
/// where a VDU would have more machines than its maximum, but for TERMINATE; `TooMany` exactly where something is made,
/// and what stands and what is made are more than 2,500 definitions; `Memory`, which may stand in place of a plan or of
/// `TooMany` alone. A plan has at most 5,000 changes, and the event that asks for it fits a record of 65,536 bytes,
/// where the ask's content isn't refused and it names at most 512 machines. Its time is that of a few passes over what
/// stands and over the plan, and of some searches for each item, each VDU and each machine that HEAL names, whose list
/// is walked once for each VDU.
///
/// Source: SOL 003 5.4.4 to 5.4.10 (the tasks of an individual VNF instance); the changes, their order and the limits
/// are own rules.
#[tactic(auto, using(crate::proofs::FitLaws::record_fits))]
pub fn plan(
    alloc: Global,
    vnfd: &Vnfd,
    holding: &Holding,
    ask: &Ask,
    to: &Levels,
) -> Result<Changes, PlanRefusal>
    requires { CanBePlanned vnfd.now holding.now to.now }
    ensures first { IfSome (first_refusal vnfd.now holding.now ask.now to.now) (λ why. result ≡ Err why) }
    ensures planned { IfOk result (λ changes. changes ≡ plan (case_of vnfd.now holding.now ask.now to.now)) }
    ensures accepted { IfOk result (λ changes. refusal vnfd.now holding.now ask.now to.now ≡ None) }
    ensures refused { IfErr result (λ why. (why ≡ PlanRefusal.Memory)
        ⊎ (refusal vnfd.now holding.now ask.now to.now ≡ Some why)) }
    ensures small { IfOk result (λ changes. length changes ≤ 5000) }
    ensures fits { IfOk result (λ changes. FitsRecord vnfd.now ask.now changes) }
{
    let case = PlanCase {
        vnfd,
        holding,
        ask,
        to: to.as_slice(),
    };
    match plan_in(alloc, &case) {
        Ok(changes) => Ok(Listed::of(changes)),
        Err(why) => Err(why),
    }
}
