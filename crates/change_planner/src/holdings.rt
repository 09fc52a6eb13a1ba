//! What a holding says stands is what the history does, and whether a holding is a descriptor's.

ghost use Rattle.std.specs.Prelude.{◌↔◌, ◌≡◌, ◌≤◌, ◌==◌, ◌&&◌, IsTrue, filter, length, map, nat_lt};
ghost use Rattle.std.specs.List.{enumerate_from, list_all};
ghost use Rattle.lcm_events.specs.Descriptors.{is_rising};
ghost use Rattle.lcm_model.specs.Descriptors.{IsHoldingOf, is_def_before, is_def_up_to};
ghost use Rattle.lcm_model.specs.Vnfcs.{is_def_of};
ghost use Rattle.lcm_model.specs.Words.{is_among};
ghost use Rattle.change_planner.specs.Inventories.{HoldingsAreInventories, PlansAreThoseOfHistories};
ghost use Rattle.change_planner.specs.Rolls.{CanBePlanned};

use crate::plans::is_in;
use crate::rolls::storages_in;
use lcm_events::{Def, DefKind, Held, Holding, Levels, Port, Vnfd};

/// The holding of an instance says what stands, what runs and which serials were used as its legal history does.
///
/// Source: SOL 003 5.5.2.2 (VnfInstance, instantiatedVnfInfo).
pub fn holdings_are_inventories()
    ensures { HoldingsAreInventories }
{}

/// The plan of an ask over the holding of an instance is its plan over the instance's legal history.
///
/// Source: SOL 003 5.4.4 to 5.4.10 (the tasks of an individual VNF instance).
pub fn plans_are_those_of_histories()
    ensures { PlansAreThoseOfHistories }
{}

/// Whether a plan may be asked for: the descriptor is valid, and the holding and the levels are its own.
///
/// Source: docs/MODEL.md, "A valid descriptor".
pub fn can_be_planned(vnfd: &Vnfd, holding: &Holding, to: &Levels) -> bool
    ensures { IsTrue result ↔ CanBePlanned vnfd.now holding.now to.now }
{
    let valid = lcm_model::is_valid(vnfd);
    let levels = lcm_model::are_levels_in(vnfd, to.as_slice());
    let held = is_holding_of(vnfd, holding);
    valid && levels && held
}

/// Whether a holding is a descriptor's.
fn is_holding_of(vnfd: &Vnfd, holding: &Holding) -> bool
    ensures { IsTrue result ↔ IsHoldingOf vnfd.now holding.now }
{
    let levels = lcm_model::are_levels_in(vnfd, holding.levels.as_slice());
    let few = holding.items.len() <= 2_500;
    let rising = are_rising(holding.items.as_slice());
    let known = are_known(vnfd, holding.top.as_slice(), holding.items.as_slice());
    let tops = holding.top.len() == vnfd.vdus.len();
    let small = are_small(holding.top.as_slice());
    levels && few && rising && known && tops && small
}

/// Whether the items rise.
#[tactic(auto, using(lcm_model::proofs::ListLaws::rising_end))]
fn are_rising(items: &[Held]) -> bool
    ensures { result ≡ is_rising (λ x y. is_def_before x.def y.def) items.now }
{
    for at in 1..items.len() {
        if !lcm_model::is_def_before(&items[at - 1].def, &items[at].def) {
            return false;
        }
    }
    true
}

/// Whether a port of this number is of a VDU.
fn is_port_of(ports: &[Port], vdu: u16, item: u16) -> bool
    ensures { result ≡ is_among (map (λ x. x.0) (filter (λ x. x.1.vdu == vdu) (enumerate_from 0 ports.now))) item }
{
    for (number, port) in ports.iter().enumerate() {
        if port.vdu == vdu && number == item as usize {
            return true;
        }
    }
    false
}

/// Whether a definition is one of the descriptor's.
fn is_of(vnfd: &Vnfd, def: &Def) -> bool
    ensures { result ≡ is_def_of vnfd.now def.now }
{
    let known = (def.vdu as usize) < vnfd.vdus.len();
    match def.kind {
        DefKind::Link => {
            (def.item as usize) < vnfd.links.len() && def.vdu == 65_535 && def.serial == 0
        }
        DefKind::Storage => {
            known && is_in(storages_in(vnfd, def.vdu), def.item) && 0 < def.serial
        }
        DefKind::Compute => known && def.item == 0 && 0 < def.serial,
        DefKind::Port => {
            known && is_port_of(vnfd.ports.as_slice(), def.vdu, def.item) && 0 < def.serial
        }
    }
}

/// Whether a definition is one of the descriptor's, with a serial up to its VDU's greatest.
fn is_up_to(vnfd: &Vnfd, tops: &[u32], def: &Def) -> bool
    ensures { result ≡ is_def_up_to vnfd.now tops.now def.now }
{
    let top = match tops.get(def.vdu as usize) {
        Some(top) => *top,
        None => 0,
    };
    is_of(vnfd, def) && (def.kind == DefKind::Link || def.serial <= top)
}

/// Whether the items are the descriptor's, with serials up to the greatest.
fn are_known(vnfd: &Vnfd, tops: &[u32], items: &[Held]) -> bool
    ensures { result ≡ list_all (λ x. is_def_up_to vnfd.now tops.now x.def) items.now }
{
    for item in items {
        if !is_up_to(vnfd, tops, &item.def) {
            return false;
        }
    }
    true
}

/// Whether the greatest serials are within the limit.
fn are_small(tops: &[u32]) -> bool
    ensures { result ≡ list_all (λ n. nat_lt n 2147483648) tops.now }
{
    for top in tops {
        if *top >= 2_147_483_648 {
            return false;
        }
    }
    true
}
