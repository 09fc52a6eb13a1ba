//! Whether an instance is in step: what stands of it is what its levels and its state say.

ghost use Rattle.std.specs.Prelude.{◌≡◌, ◌&&◌, ◌*◌, ◌<◌, ◌==◌, ◌≤◌, length};
ghost use Rattle.std.specs.List.{list_all};
ghost use Rattle.lcm_model.specs.Descriptors.{IsHoldingOf, IsValid};
ghost use Rattle.lcm_model.specs.Instances.{inventory_of};
ghost use Rattle.lcm_model.specs.Vnfcs.{is_in_step, is_vdu_in_step, links, vdu_numbers};
ghost use Rattle.change_planner.specs.Rolls.{distinct, runs_as_meant};

use crate::rolls::size_of_machine;
use crate::spans::items_of_vdu;
use lcm_events::{DefKind, Held, Holding, Vnfd};
use lcm_model::count_in;

/// How many machines of a VDU these items are of.
fn count_machines(items: &[Held], vdu: u16) -> usize
    ensures value { result ≡ length (distinct vdu 0 items.now) }
    ensures bound { result ≤ length items.now }
{
    let mut count = 0;
    let mut last = 0;
    for item in items {
        if item.def.vdu == vdu && item.def.serial != last {
            last = item.def.serial;
            count += 1;
        }
    }
    count
}

/// How many items so many whole machines have.
#[tactic(auto, using(crate::proofs::RangeLaws::whole_bound))]
fn items_of_machines(machines: usize, size: usize) -> usize
    requires few { machines ≤ 2500 }
    requires small { size ≤ 385 }
    ensures { result ≡ machines * size }
{
    machines * size
}

/// Whether each compute of these items runs exactly where the instance is started.
fn run_as_meant(items: &[Held], started: bool) -> bool
    ensures { result ≡ list_all (runs_as_meant started) items.now }
{
    for item in items {
        if item.def.kind == DefKind::Compute && item.running != started {
            return false;
        }
    }
    true
}

/// Whether these items of a VDU are those of so many whole machines of this size, each running exactly where the
/// instance is started.
fn are_as_meant(items: &[Held], vdu: u16, count: u32, size: usize, started: bool) -> bool
    requires few { length items.now ≤ 2500 }
    requires small { size ≤ 385 }
    ensures { result ≡ (((length (distinct vdu 0 items.now) == count)
        && (length items.now == length (distinct vdu 0 items.now) * size))
        && list_all (runs_as_meant started) items.now) }
{
    let machines = count_machines(items, vdu);
    let meant = items_of_machines(machines, size);
    let running = run_as_meant(items, started);
    machines == count as usize && items.len() == meant && running
}

/// Whether a VDU is in step.
fn is_vdu_in_step_in(vnfd: &Vnfd, holding: &Holding, vdu: u16) -> bool
    requires valid { IsValid vnfd.now }
    requires held { IsHoldingOf vnfd.now holding.now }
    requires known { vdu < length vnfd.now.vdus }
    ensures { result ≡ is_vdu_in_step vnfd.now (inventory_of holding.now) holding.now.levels holding.now.started vdu }
{
    let items = items_of_vdu(holding.items.as_slice(), vdu);
    let count = count_in(vnfd, vdu, holding.levels.as_slice());
    let size = size_of_machine(vnfd, vdu);
    are_as_meant(items, vdu, count, size, holding.started)
}

/// Whether each VDU is in step.
#[tactic(auto, using(lcm_model::proofs::ListLaws::range_step))]
fn are_vdus_in_step(vnfd: &Vnfd, holding: &Holding) -> bool
    requires valid { IsValid vnfd.now }
    requires held { IsHoldingOf vnfd.now holding.now }
    ensures { result ≡ list_all (is_vdu_in_step vnfd.now (inventory_of holding.now) holding.now.levels
        holding.now.started) (vdu_numbers vnfd.now) }
{
    let count = vnfd.vdus.len();
    for vdu in 0..count {
        if !is_vdu_in_step_in(vnfd, holding, vdu as u16) {
            return false;
        }
    }
    true
}

/// Whether every link stands.
fn all_links_stand(vnfd: &Vnfd, holding: &Holding) -> bool
    requires valid { IsValid vnfd.now }
    requires held { IsHoldingOf vnfd.now holding.now }
    ensures { result ≡ list_all (inventory_of holding.now).stands (links vnfd.now) }
{
    items_of_vdu(holding.items.as_slice(), 65_535).len() == vnfd.links.len()
}

/// Whether an instance is in step: each VDU has as many machines as the levels say, all of them whole and each running
/// exactly where the instance is started, and every link stands.
///
/// Its time is that of one pass over what stands, and of a search and a pass over the descriptor's ports and aspects
/// for each VDU.
///
/// Source: docs/MODEL.md, "Machines, whole and partial" (own rule over SOL 003 5.5.2.2, instantiatedVnfInfo).
pub fn is_in_step(vnfd: &Vnfd, holding: &Holding) -> bool
    requires valid { IsValid vnfd.now }
    requires held { IsHoldingOf vnfd.now holding.now }
    ensures { result ≡ is_in_step vnfd.now (inventory_of holding.now) holding.now.levels holding.now.started }
{
    let vdus = are_vdus_in_step(vnfd, holding);
    let links = all_links_stand(vnfd, holding);
    vdus && links
}
