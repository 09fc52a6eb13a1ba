//! What becomes of the machines of each VDU.

ghost use Rattle.std.specs.Prelude.{◌≡◌, ◌+◌, ◌-◌, ◌<◌, ◌≤◌, ◌&&◌, ◌==◌, IfOk, filter, length, map, not, true, ℕ};
ghost use Rattle.std.specs.List.{enumerate_from, list_all};
ghost use Rattle.std.specs.List.Sorted.{IsNonDecreasing};
ghost use Rattle.lcm_model.specs.Descriptors.{IsValid};
ghost use Rattle.lcm_model.specs.Instances.{inventory_of};
ghost use Rattle.lcm_model.specs.Plans.{is_named, may_stay, stay, want};
ghost use Rattle.lcm_model.specs.Vnfcs.{is_there, is_whole, storages_of, there, vdu_numbers};
ghost use Rattle.lcm_model.specs.Words.{is_among};
ghost use Rattle.change_planner.specs.Planning.{unknown_among, unknown_vnfc};
ghost use Rattle.change_planner.specs.Rolls.{CanBePlanned, are_rising, case_in, distinct, is_small, missing_by};
ghost use Rattle.change_planner.specs.Rolls.{parts_of, roll_of};

use crate::plans::is_among_sorted;
use crate::spans::{items_at, items_of_vdu};
use lcm_events::{Ask, Held, Holding, Listed, Port, Vnfc, Vnfd};
use lcm_model::count_in;
use std::alloc::{AllocError, Global};

/// What a plan is made for.
#[derive(Clone, Copy, Drop)]
pub(crate) struct PlanCase<'a> {
    /// The instance's descriptor.
    pub(crate) vnfd: &'a Vnfd,
    /// What stands.
    pub(crate) holding: &'a Holding,
    /// What is asked.
    pub(crate) ask: &'a Ask,
    /// The levels that it aims at.
    pub(crate) to: &'a [u32],
}

/// What becomes of the machines of one VDU.
#[derive(Drop)]
pub(crate) struct Roll {
    /// The serials that stay, rising.
    pub(crate) staying: Listed<u32>,
    /// The greatest serial that any change gave.
    pub(crate) top: u32,
    /// How many machines are made.
    pub(crate) missing: u32,
}

/// The rising serials of the items of a VDU, each once.
fn distinct_in(alloc: Global, items: &[Held], vdu: u16) -> Result<Vec<u32>, AllocError>
    ensures { IfOk result (λ v. v.items ≡ distinct vdu 0 items.now) }
{
    let mut serials: Vec<u32> = Vec::new(alloc);
    let mut last = 0;
    for item in items {
        if item.def.vdu == vdu && item.def.serial != last {
            last = item.def.serial;
            serials.push(last)?;
        }
    }
    Ok(serials)
}

/// The serials of a VDU of which something stands, rising.
#[tactic(auto, using(crate::proofs::RollLaws::own_there))]
fn there_in(alloc: Global, case: &PlanCase, vdu: u16) -> Result<Vec<u32>, AllocError>
    requires held { CanBePlanned case.now.vnfd.now case.now.holding.now case.now.to.now }
    requires known { vdu < length case.now.vnfd.now.vdus }
    ensures { IfOk result (λ v. v.items ≡ there case.now.vnfd.now (inventory_of case.now.holding.now) vdu) }
{
    let items = items_of_vdu(case.holding.items.as_slice(), vdu);
    distinct_in(alloc, items, vdu)
}

/// How many of the ports are of a VDU.
fn count_ports(ports: &[Port], vdu: u16) -> usize
    ensures value { result ≡ length (map (λ x. x.0) (filter (λ x. x.1.vdu == vdu) (enumerate_from 0 ports.now))) }
    ensures bound { result ≤ length ports.now }
{
    let mut count = 0;
    for port in ports {
        if port.vdu == vdu {
            count += 1;
        }
    }
    count
}

/// The numbers of a VDU's storages in the descriptor, from 0; none where there is no such VDU.
///
/// Source: SOL 001, tosca.nodes.nfv.Vdu.Compute.
pub fn storages_in(vnfd: &Vnfd, vdu: u16) -> &[u16]
    ensures { result.now ≡ storages_of vnfd.now vdu }
{
    match vnfd.vdus.as_slice().get(vdu as usize) {
        Some(kind) => kind.storages.as_slice(),
        None => &[],
    }
}

/// How many definitions each machine of a VDU has.
#[tactic(auto, using(crate::proofs::RollLaws::storages_few, crate::proofs::RollLaws::ports_few))]
pub(crate) fn size_of_machine(vnfd: &Vnfd, vdu: u16) -> usize
    requires { IsValid vnfd.now }
    ensures value { result ≡ parts_of vnfd.now vdu }
    ensures bound { result ≤ 385 }
{
    storages_in(vnfd, vdu).len() + 1 + count_ports(vnfd.ports.as_slice(), vdu)
}

/// The serials of a VDU that are named.
fn serials_named(alloc: Global, named: &[Vnfc], vdu: u16) -> Result<Vec<u32>, AllocError>
    ensures { IfOk result (λ v. v.items ≡ map (λ x. x.serial) (filter (λ x. x.vdu == vdu) named.now)) }
{
    let mut serials: Vec<u32> = Vec::new(alloc);
    for vnfc in named {
        if vnfc.vdu == vdu {
            serials.push(vnfc.serial)?;
        }
    }
    Ok(serials)
}

/// The serials of a VDU that are named, none before a lesser one.
fn named_in(alloc: Global, named: &[Vnfc], vdu: u16) -> Result<Vec<u32>, AllocError>
    ensures named { IfOk result (λ v. (s : ℕ) → is_among v.items s ≡ is_named named.now vdu s) }
    ensures sorted { IfOk result (λ v. IsNonDecreasing v.items) }
{
    let mut serials = serials_named(alloc, named, vdu)?;
    serials.sort()?;
    Ok(serials)
}

/// Whether all definitions of a machine stand, of which a whole one has so many.
#[tactic(auto, using(crate::proofs::RollLaws::counted_whole))]
fn is_whole_in(case: &PlanCase, vdu: u16, size: usize, serial: u32) -> bool
    requires held { CanBePlanned case.now.vnfd.now case.now.holding.now case.now.to.now }
    requires known { vdu < length case.now.vnfd.now.vdus }
    requires size { size ≡ parts_of case.now.vnfd.now vdu }
    ensures { result ≡ is_whole case.now.vnfd.now (inventory_of case.now.holding.now) vdu serial }
{
    let standing = items_at(case.holding.items.as_slice(), vdu, serial);
    standing.len() == size
}

/// Those of these serials whose machines are whole, of this size, and aren't in a list in which none stands before a
/// lesser one.
fn whole_without(
    alloc: Global,
    case: &PlanCase,
    vdu: u16,
    size: usize,
    named: &[u32],
    serials: &[u32],
) -> Result<Vec<u32>, AllocError>
    requires held { CanBePlanned case.now.vnfd.now case.now.holding.now case.now.to.now }
    requires known { vdu < length case.now.vnfd.now.vdus }
    requires size { size ≡ parts_of case.now.vnfd.now vdu }
    requires sorted { IsNonDecreasing named.now }
    ensures { IfOk result (λ v. v.items ≡ filter (λ s. is_whole case.now.vnfd.now
        (inventory_of case.now.holding.now) vdu s && not (is_among named.now s)) serials.now) }
{
    let mut kept: Vec<u32> = Vec::new(alloc);
    for serial in serials {
        if is_whole_in(case, vdu, size, *serial) && !is_among_sorted(named, *serial) {
            kept.push(*serial)?;
        }
    }
    Ok(kept)
}

/// Those of these serials whose machines are whole and aren't named.
fn whole_unnamed(
    alloc: Global,
    case: &PlanCase,
    vdu: u16,
    named: &[Vnfc],
    serials: &[u32],
) -> Result<Vec<u32>, AllocError>
    requires held { CanBePlanned case.now.vnfd.now case.now.holding.now case.now.to.now }
    requires known { vdu < length case.now.vnfd.now.vdus }
    ensures { IfOk result (λ v. v.items ≡ filter (λ s. is_whole case.now.vnfd.now
        (inventory_of case.now.holding.now) vdu s && not (is_named named.now vdu s)) serials.now) }
{
    let named = named_in(alloc, named, vdu)?;
    let size = size_of_machine(case.vnfd, vdu);
    whole_without(alloc, case, vdu, size, named.as_slice(), serials)
}

/// The serials of a VDU that the ask may leave.
fn may_stay_in(alloc: Global, case: &PlanCase, vdu: u16) -> Result<Vec<u32>, AllocError>
    requires held { CanBePlanned case.now.vnfd.now case.now.holding.now case.now.to.now }
    requires known { vdu < length case.now.vnfd.now.vdus }
    ensures { IfOk result (λ v. v.items ≡ may_stay case.now.ask.now (case_in case.now) vdu) }
{
    match case.ask {
        Ask::Instantiate { .. } | Ask::Terminate { .. } => Ok(Vec::new(alloc)),
        Ask::Heal { named, .. } => {
            if named.is_empty() {
                return Ok(Vec::new(alloc));
            }
            let there = there_in(alloc, case, vdu)?;
            whole_unnamed(alloc, case, vdu, named.as_slice(), there.as_slice())
        }
        _ => there_in(alloc, case, vdu),
    }
}

/// How many machines the VDU is to have.
fn want_in(case: &PlanCase, vdu: u16) -> u32
    requires { CanBePlanned case.now.vnfd.now case.now.holding.now case.now.to.now }
    ensures value { result ≡ want (case_in case.now) vdu }
    ensures bound { result ≤ 1048625535 }
{
    count_in(case.vnfd, vdu, case.to)
}

/// The serials of a VDU that stay.
fn stay_in(alloc: Global, case: &PlanCase, vdu: u16) -> Result<Vec<u32>, AllocError>
    requires held { CanBePlanned case.now.vnfd.now case.now.holding.now case.now.to.now }
    requires known { vdu < length case.now.vnfd.now.vdus }
    ensures { IfOk result (λ v. v.items ≡ stay (case_in case.now) vdu) }
{
    let mut serials = may_stay_in(alloc, case, vdu)?;
    if !matches!(case.ask, Ask::Operate { .. }) {
        serials.truncate(want_in(case, vdu) as usize);
    }
    Ok(serials)
}

/// How many machines a VDU is to have beside these.
fn beside(want: u32, staying: usize) -> u32
    requires { want ≤ 1048625535 }
    ensures value { result ≡ want - staying }
    ensures bound { result ≤ 1048625535 }
{
    if (want as usize) < staying {
        0
    } else {
        want - staying as u32
    }
}

/// How many machines of a VDU an ask makes, beside those that stay.
fn missing_in(case: &PlanCase, vdu: u16, staying: &[u32]) -> u32
    requires held { CanBePlanned case.now.vnfd.now case.now.holding.now case.now.to.now }
    requires staying { staying.now ≡ stay (case_in case.now) vdu }
    ensures value { result ≡ missing_by case.now.ask.now (case_in case.now) vdu }
    ensures bound { result ≤ 1048625535 }
{
    if matches!(case.ask, Ask::Operate { .. } | Ask::Terminate { .. }) {
        0
    } else {
        beside(want_in(case, vdu), staying.len())
    }
}

/// The greatest serial of a VDU, which is within the limit.
#[tactic(auto, using(crate::proofs::RollLaws::small_top))]
fn top_in(case: &PlanCase, vdu: u16) -> u32
    requires { CanBePlanned case.now.vnfd.now case.now.holding.now case.now.to.now }
    ensures value { result ≡ (inventory_of case.now.holding.now).top vdu }
    ensures small { result < 2147483648 }
{
    match case.holding.top.as_slice().get(vdu as usize) {
        Some(top) => *top,
        None => 0,
    }
}

/// What becomes of the machines of a VDU.
fn roll_in(alloc: Global, case: &PlanCase, vdu: u16) -> Result<Roll, AllocError>
    requires held { CanBePlanned case.now.vnfd.now case.now.holding.now case.now.to.now }
    requires known { vdu < length case.now.vnfd.now.vdus }
    ensures roll { IfOk result (λ roll. roll ≡ roll_of (case_in case.now) vdu) }
    ensures small { IfOk result (λ roll. is_small roll ≡ true) }
{
    let staying = stay_in(alloc, case, vdu)?;
    let missing = missing_in(case, vdu, staying.as_slice());
    Ok(Roll {
        top: top_in(case, vdu),
        missing,
        staying: Listed::of(staying),
    })
}

/// What becomes of the machines of each VDU.
pub(crate) fn rolls_in(alloc: Global, case: &PlanCase) -> Result<Vec<Roll>, AllocError>
    requires { CanBePlanned case.now.vnfd.now case.now.holding.now case.now.to.now }
    ensures rolls { IfOk result (λ rolls. rolls.items ≡ map (roll_of (case_in case.now))
        (vdu_numbers case.now.vnfd.now)) }
    ensures small { IfOk result (λ rolls. list_all is_small rolls.items ≡ true) }
    ensures few { IfOk result (λ rolls. length rolls.items ≤ 64) }
    ensures rising { IfOk result (λ rolls. are_rising rolls.items ≡ true) }
{
    let count = case.vnfd.vdus.len();
    let mut rolls: Vec<Roll> = Vec::new(alloc);
    for vdu in 0..count {
        rolls.push(roll_in(alloc, case, vdu as u16)?)?;
    }
    Ok(rolls)
}

/// Whether something of a machine stands.
#[tactic(auto, using(crate::proofs::RollLaws::there_at))]
fn is_there_in(vnfd: &Vnfd, holding: &Holding, to: &[u32], vnfc: &Vnfc) -> bool
    requires { CanBePlanned vnfd.now holding.now to.now }
    ensures { result ≡ is_there vnfd.now (inventory_of holding.now) vnfc.now.vdu vnfc.now.serial }
{
    let _to = to;
    let standing = items_at(holding.items.as_slice(), vnfc.vdu, vnfc.serial);
    (vnfc.vdu as usize) < vnfd.vdus.len() && 0 < standing.len()
}

/// The place, from 0, of the first of these machines of which nothing stands.
fn first_unknown(case: &PlanCase, named: &[Vnfc]) -> Option<usize>
    requires { CanBePlanned case.now.vnfd.now case.now.holding.now case.now.to.now }
    ensures { result ≡ unknown_among case.now.vnfd.now case.now.holding.now named.now }
{
    for (place, vnfc) in named.iter().enumerate() {
        if !is_there_in(case.vnfd, case.holding, case.to, vnfc) {
            return Some(place);
        }
    }
    None
}

/// The place, from 0, of the first machine that HEAL names and of which nothing stands.
pub(crate) fn unknown_in(case: &PlanCase) -> Option<usize>
    requires { CanBePlanned case.now.vnfd.now case.now.holding.now case.now.to.now }
    ensures { result ≡ unknown_vnfc case.now.vnfd.now case.now.holding.now case.now.ask.now }
{
    match case.ask {
        Ask::Heal { named, .. } => first_unknown(case, named.as_slice()),
        _ => None,
    }
}
