//! The plan of an operation over what stands.

ghost use Rattle.std.specs.Prelude.{◌≡◌, ◌++◌, ◌+◌, ◌*◌, ◌<◌, ◌≤◌, ◌==◌, IfOk, OnOk, filter, flat_map, length, map};
ghost use Rattle.std.specs.Prelude.{nat_lt, not, true};
ghost use Rattle.std.specs.List.{enumerate_from, list_all, range_with_len};
ghost use Rattle.std.specs.List.Sorted.{IsNonDecreasing};
ghost use Rattle.lcm_events.specs.Descriptors.{is_rising};
ghost use Rattle.lcm_model.specs.Descriptors.{IsValid};
ghost use Rattle.lcm_model.specs.Plans.{change, makes_links, phase, removes_links, starts, stops};
ghost use Rattle.lcm_model.specs.Vnfcs.{def_of, defs, items, link_def};
ghost use Rattle.lcm_model.specs.Words.{is_among};
ghost use Rattle.change_planner.specs.Rolls.{are_rising, changes_if, changes_where, held_links, is_picked, is_small};
ghost use Rattle.change_planner.specs.Rolls.{links_to_make, made_by, missing_links, new_defs, plan_by, stays_by};

use crate::rolls::{Roll, storages_in};
use lcm_events::{Ask, Change, Def, DefKind, Held, Port, StopType, Verb, Vnfd};
use std::alloc::{AllocError, Global};

/// Which items a phase of a plan is about.
#[derive(Clone, Copy)]
pub(crate) enum Pick {
    /// Those of one kind whose machines leave.
    Leaving(DefKind),
    /// Stopped computes whose machines stay.
    Stopped,
    /// Computes that run.
    Running,
    /// Links.
    Links,
}

/// When it is the turn of a change with this verb at a definition of this kind.
fn phase_of(verb: Verb, kind: DefKind) -> u8
    ensures { result ≡ phase verb kind }
{
    let place = match kind {
        DefKind::Link => 0,
        DefKind::Storage => 1,
        DefKind::Compute => 2,
        DefKind::Port => 3,
    };
    match verb {
        Verb::Create => place,
        Verb::Remove => 8 - place,
        Verb::Start | Verb::Stop => 4,
    }
}

/// The change with this verb at a definition.
fn change_of(verb: Verb, def: Def) -> Change
    ensures { result ≡ change verb def }
{
    Change {
        phase: phase_of(verb, def.kind),
        verb,
        def,
    }
}

/// Whether a number is among others, of which none stands before a lesser one.
pub(crate) fn is_among_sorted(numbers: &[u32], number: u32) -> bool
    requires { IsNonDecreasing numbers.now }
    ensures { result ≡ is_among numbers.now number }
{
    numbers.binary_search(&number).is_ok()
}

/// Whether a number is among rising ones.
fn is_among_rising(numbers: &[u32], number: u32) -> bool
    requires { is_rising nat_lt numbers.now ≡ true }
    ensures { result ≡ is_among numbers.now number }
{
    is_among_sorted(numbers, number)
}

/// Whether the machine of an item stays.
#[tactic(auto, using(crate::proofs::SearchLaws::rising_at))]
fn stays(rolls: &[Roll], item: &Held) -> bool
    requires { are_rising rolls.now ≡ true }
    ensures { result ≡ stays_by rolls.now item.now }
{
    match rolls.get(item.def.vdu as usize) {
        Some(roll) => is_among_rising(roll.staying.as_slice(), item.def.serial),
        None => false,
    }
}

/// Whether a phase is about an item.
fn picks(pick: Pick, rolls: &[Roll], item: &Held) -> bool
    requires { are_rising rolls.now ≡ true }
    ensures { result ≡ is_picked pick rolls.now item.now }
{
    let kind = item.def.kind;
    match pick {
        Pick::Leaving(wanted) => kind == wanted && !stays(rolls, item),
        Pick::Stopped => kind == DefKind::Compute && stays(rolls, item) && !item.running,
        Pick::Running => kind == DefKind::Compute && item.running,
        Pick::Links => kind == DefKind::Link,
    }
}

/// Puts a change with this verb last for each item that a phase is about.
fn push_picked(
    list: &mut Vec<Change>,
    verb: Verb,
    pick: Pick,
    rolls: &[Roll],
    items: &[Held],
) -> Result<(), AllocError>
    requires { are_rising rolls.now ≡ true }
    ensures { OnOk result (list.new.items ≡ list.old.items ++ changes_where verb (is_picked pick rolls.now) items.now) }
{
    for item in items {
        if picks(pick, rolls, item) {
            list.push(change_of(verb, item.def))?;
        }
    }
    Ok(())
}

/// The numbers of the links that stand.
fn held_links_in(alloc: Global, items: &[Held]) -> Result<Vec<u16>, AllocError>
    ensures { IfOk result (λ v. v.items ≡ held_links items.now) }
{
    let mut numbers: Vec<u16> = Vec::new(alloc);
    for item in items {
        if item.def.kind == DefKind::Link {
            numbers.push(item.def.item)?;
        }
    }
    Ok(numbers)
}

/// Whether a number is in a list.
pub(crate) fn is_in(numbers: &[u16], number: u16) -> bool
    ensures { result ≡ is_among numbers.now number }
{
    for other in numbers {
        if *other == number {
            return true;
        }
    }
    false
}

/// The numbers below this one.
fn numbers_below(alloc: Global, count: u16) -> Result<Vec<u16>, AllocError>
    ensures { IfOk result (λ v. v.items ≡ range_with_len 0 count) }
{
    let mut numbers: Vec<u16> = Vec::new(alloc);
    for number in 0..count {
        numbers.push(number)?;
    }
    Ok(numbers)
}

/// Those of these numbers that aren't in a list.
fn without(alloc: Global, numbers: &[u16], held: &[u16]) -> Result<Vec<u16>, AllocError>
    ensures { IfOk result (λ v. v.items ≡ filter (λ n. not (is_among held.now n)) numbers.now) }
{
    let mut missing: Vec<u16> = Vec::new(alloc);
    for number in numbers {
        if !is_in(held, *number) {
            missing.push(*number)?;
        }
    }
    Ok(missing)
}

/// The numbers of the links of the descriptor that don't stand.
fn missing_links_in(alloc: Global, vnfd: &Vnfd, items: &[Held]) -> Result<Vec<u16>, AllocError>
    requires { IsValid vnfd.now }
    ensures { IfOk result (λ v. v.items ≡ missing_links vnfd.now items.now) }
{
    let held = held_links_in(alloc, items)?;
    let numbers = numbers_below(alloc, vnfd.links.len() as u16)?;
    without(alloc, numbers.as_slice(), held.as_slice())
}

/// The numbers of the links that an ask makes.
pub(crate) fn links_in(
    alloc: Global,
    vnfd: &Vnfd,
    ask: &Ask,
    items: &[Held],
) -> Result<Vec<u16>, AllocError>
    requires { IsValid vnfd.now }
    ensures { IfOk result (λ v. v.items ≡ links_to_make vnfd.now ask.now items.now) }
{
    if matches!(ask, Ask::Instantiate { .. } | Ask::Heal { .. }) {
        missing_links_in(alloc, vnfd, items)
    } else {
        Ok(Vec::new(alloc))
    }
}

/// Puts the changes that make these links last.
fn push_links(list: &mut Vec<Change>, links: &[u16]) -> Result<(), AllocError>
    ensures { OnOk result (list.new.items ≡ list.old.items ++ map (change Verb.Create) (map link_def links.now)) }
{
    for link in links {
        let def = Def {
            kind: DefKind::Link,
            item: *link,
            vdu: 65_535,
            serial: 0,
        };
        list.push(change_of(Verb::Create, def))?;
    }
    Ok(())
}

/// The numbers of the ports of a VDU.
fn ports_in(alloc: Global, ports: &[Port], vdu: u16) -> Result<Vec<u16>, AllocError>
    requires { length ports.now ≤ 256 }
    ensures { IfOk result (λ v. v.items ≡ map (λ x. x.0) (filter (λ x. x.1.vdu == vdu) (enumerate_from 0 ports.now))) }
{
    let mut numbers: Vec<u16> = Vec::new(alloc);
    for (number, port) in ports.iter().enumerate() {
        if port.vdu == vdu {
            numbers.push(number as u16)?;
        }
    }
    Ok(numbers)
}

/// The items of one kind that each machine of a VDU has.
#[tactic(auto, using(crate::proofs::RollLaws::ports_few))]
fn items_in(alloc: Global, vnfd: &Vnfd, kind: DefKind, vdu: u16) -> Result<Vec<u16>, AllocError>
    requires { IsValid vnfd.now }
    ensures { IfOk result (λ v. v.items ≡ items vnfd.now kind vdu) }
{
    let mut numbers: Vec<u16> = Vec::new(alloc);
    match kind {
        DefKind::Compute => numbers.push(0)?,
        DefKind::Storage => numbers.extend_from_slice(storages_in(vnfd, vdu))?,
        DefKind::Port => return ports_in(alloc, vnfd.ports.as_slice(), vdu),
        DefKind::Link => {}
    }
    Ok(numbers)
}

/// Puts the changes that make these items of a machine last.
fn push_machine(
    list: &mut Vec<Change>,
    kind: DefKind,
    vdu: u16,
    serial: u32,
    items: &[u16],
) -> Result<(), AllocError>
    ensures { OnOk result (list.new.items ≡ list.old.items
        ++ map (change Verb.Create) (map (def_of kind vdu serial) items.now)) }
{
    for item in items {
        let def = Def {
            kind,
            item: *item,
            vdu,
            serial,
        };
        list.push(change_of(Verb::Create, def))?;
    }
    Ok(())
}

/// Puts the changes that make these items of so many machines last, whose serials are the next ones.
fn push_machines(
    list: &mut Vec<Change>,
    kind: DefKind,
    vdu: u16,
    top: u32,
    missing: u32,
    items: &[u16],
) -> Result<(), AllocError>
    requires { top + missing < 4294967296 }
    ensures { OnOk result (list.new.items ≡ list.old.items
        ++ map (change Verb.Create) (flat_map (λ s. map (def_of kind vdu s) items.now)
        (range_with_len (top + 1) missing))) }
{
    for at in 0..missing {
        push_machine(list, kind, vdu, top + 1 + at, items)?;
    }
    Ok(())
}

/// Puts the changes that make the definitions of one kind of the new machines last.
#[tactic(auto, using(crate::proofs::SearchLaws::small_at))]
fn push_made(
    alloc: Global,
    list: &mut Vec<Change>,
    vnfd: &Vnfd,
    rolls: &[Roll],
    kind: DefKind,
) -> Result<(), AllocError>
    requires valid { IsValid vnfd.now }
    requires small { list_all is_small rolls.now ≡ true }
    requires few { length rolls.now ≤ 64 }
    ensures { OnOk result (list.new.items ≡ list.old.items ++ made_by vnfd.now kind rolls.now) }
{
    for (vdu, roll) in rolls.iter().enumerate() {
        push_new(alloc, list, vnfd, vdu as u16, roll, kind)?;
    }
    Ok(())
}

/// Puts the changes that make the definitions of one kind of the new machines of a VDU last.
fn push_new(
    alloc: Global,
    list: &mut Vec<Change>,
    vnfd: &Vnfd,
    vdu: u16,
    roll: &Roll,
    kind: DefKind,
) -> Result<(), AllocError>
    requires valid { IsValid vnfd.now }
    requires small { roll.now.top + roll.now.missing < 4294967296 }
    ensures { OnOk result (list.new.items ≡ list.old.items
        ++ map (change Verb.Create) (new_defs vnfd.now kind (vdu, roll.now))) }
{
    let items = items_in(alloc, vnfd, kind, vdu)?;
    push_machines(list, kind, vdu, roll.top, roll.missing, items.as_slice())
}

/// Whether the ask starts the computes that are stopped.
fn starts_computes(ask: &Ask) -> bool
    ensures { result ≡ starts ask.now }
{
    match ask {
        Ask::Heal { .. } => true,
        Ask::Operate { started, .. } => *started,
        _ => false,
    }
}

/// Whether the ask stops the computes that run.
fn stops_computes(ask: &Ask) -> bool
    ensures { result ≡ stops ask.now }
{
    match ask {
        Ask::Operate { started, .. } => !*started,
        Ask::Terminate {
            mode: StopType::Graceful,
            ..
        } => true,
        _ => false,
    }
}

/// Puts the changes of a phase last, where the ask has them.
fn push_if(
    list: &mut Vec<Change>,
    asked: bool,
    verb: Verb,
    pick: Pick,
    rolls: &[Roll],
    items: &[Held],
) -> Result<(), AllocError>
    requires { are_rising rolls.now ≡ true }
    ensures { OnOk result (list.new.items ≡ list.old.items
        ++ changes_if asked verb (is_picked pick rolls.now) items.now) }
{
    if asked {
        push_picked(list, verb, pick, rolls, items)
    } else {
        Ok(())
    }
}

/// Whether the ask takes the links away.
fn takes_links(ask: &Ask) -> bool
    ensures { result ≡ removes_links ask.now }
{
    matches!(ask, Ask::Terminate { .. })
}

/// The plan that rolls, items and links to make come to, phase by phase, and in a phase by VDU, serial and item.
pub(crate) fn changes_in(
    alloc: Global,
    vnfd: &Vnfd,
    ask: &Ask,
    rolls: &[Roll],
    items: &[Held],
    links: &[u16],
) -> Result<Vec<Change>, AllocError>
    requires valid { IsValid vnfd.now }
    requires small { list_all is_small rolls.now ≡ true }
    requires few { length rolls.now ≤ 64 }
    requires rising { are_rising rolls.now ≡ true }
    requires links { links.now ≡ links_to_make vnfd.now ask.now items.now }
    ensures { IfOk result (λ v. v.items ≡ plan_by vnfd.now ask.now rolls.now items.now) }
{
    let mut changes: Vec<Change> = Vec::new(alloc);
    push_links(&mut changes, links)?;
    push_made(alloc, &mut changes, vnfd, rolls, DefKind::Storage)?;
    push_made(alloc, &mut changes, vnfd, rolls, DefKind::Compute)?;
    push_made(alloc, &mut changes, vnfd, rolls, DefKind::Port)?;
    push_if(
        &mut changes,
        starts_computes(ask),
        Verb::Start,
        Pick::Stopped,
        rolls,
        items,
    )?;
    push_if(
        &mut changes,
        stops_computes(ask),
        Verb::Stop,
        Pick::Running,
        rolls,
        items,
    )?;
    push_picked(
        &mut changes,
        Verb::Remove,
        Pick::Leaving(DefKind::Port),
        rolls,
        items,
    )?;
    push_picked(
        &mut changes,
        Verb::Remove,
        Pick::Leaving(DefKind::Compute),
        rolls,
        items,
    )?;
    push_picked(
        &mut changes,
        Verb::Remove,
        Pick::Leaving(DefKind::Storage),
        rolls,
        items,
    )?;
    push_if(
        &mut changes,
        takes_links(ask),
        Verb::Remove,
        Pick::Links,
        rolls,
        items,
    )?;
    Ok(changes)
}
