//! The parts of events: attempts, changes, what is asked, places, outcomes and filters.
ghost use Rattle.std.specs.Prelude.{◌≡◌, length, nat_lt};
ghost use Rattle.std.specs.List.{list_all};
ghost use Rattle.event_codec.specs.Combinators.{u8_at};
ghost use Rattle.event_codec.specs.Gives.{Gives};
ghost use Rattle.event_codec.specs.Readers.{u16_at, u32_at, name_at, line_at, tag_at, change_at, vnfc_at};
ghost use Rattle.event_codec.specs.Readers.{aspect_level_at, aim_at, ask_at, operation_at, grant_try_at, place_at};
ghost use Rattle.event_codec.specs.Readers.{placed_at, outcome_at, filter_at, notice_kind_at, operation_type_at};
ghost use Rattle.event_codec.specs.Readers.{op_state_at};

use crate::fault::DecodeFault;
use crate::input::Input;
use crate::lists::{Read, few, many, optional};
use crate::words;
use lcm_events::{
    Aim, Ask, AspectLevel, Change, Def, Filter, GrantTry, Listed, NoticeKind, OpState, Operation,
    OperationType, Outcome, Place, Tag, Vnfc,
};
use std::alloc::Global;
use vnfm_base::{Line, Name};

impl Read for u8 {
    ghost at = { λ _. u8_at };

    fn read(_alloc: Global, input: &mut Input, _numbers: usize) -> Result<u8, DecodeFault> {
        input.u8()
    }
}

impl Read for u16 {
    ghost at = { λ _. u16_at };

    fn read(_alloc: Global, input: &mut Input, _numbers: usize) -> Result<u16, DecodeFault> {
        input.u16()
    }
}

impl Read for u32 {
    ghost at = { λ _. u32_at };

    fn read(_alloc: Global, input: &mut Input, _numbers: usize) -> Result<u32, DecodeFault> {
        input.u32()
    }
}

impl Read for Name {
    ghost at = { λ _. name_at };

    fn read(_alloc: Global, input: &mut Input, _numbers: usize) -> Result<Name, DecodeFault> {
        input.name()
    }
}

impl Read for Line {
    ghost at = { λ _. line_at };

    fn read(alloc: Global, input: &mut Input, _numbers: usize) -> Result<Line, DecodeFault> {
        input.line(alloc)
    }
}

impl Read for NoticeKind {
    ghost at = { λ _. notice_kind_at };

    fn read(_alloc: Global, input: &mut Input, _numbers: usize) -> Result<NoticeKind, DecodeFault> {
        words::notice_kind(input)
    }
}

impl Read for OperationType {
    ghost at = { λ _. operation_type_at };

    fn read(
        _alloc: Global,
        input: &mut Input,
        _numbers: usize,
    ) -> Result<OperationType, DecodeFault> {
        words::operation_type(input)
    }
}

impl Read for OpState {
    ghost at = { λ _. op_state_at };

    fn read(_alloc: Global, input: &mut Input, _numbers: usize) -> Result<OpState, DecodeFault> {
        words::op_state(input)
    }
}

/// The name of an attempt, whose number counts from 1.
#[tactic(auto, unfolding(crate::specs::Readers::tag_at))]
pub(crate) fn tag(input: &mut Input) -> Result<Tag, DecodeFault>
    ensures { Gives input.new result (tag_at input.old) }
{
    let occ = input.u64()?;
    let change = input.u16()?;
    let attempt = input.u32()?;
    if attempt < 1 {
        return Err(DecodeFault::NotEvent);
    }
    let way = words::way(input)?;
    Ok(Tag {
        occ,
        change,
        attempt,
        way,
    })
}

impl Read for Change {
    ghost at = { λ _. change_at };

    #[tactic(auto, unfolding(crate::specs::Readers::change_at))]
    fn read(_alloc: Global, input: &mut Input, _numbers: usize) -> Result<Change, DecodeFault> {
        let phase = input.u8()?;
        if phase > 8 {
            return Err(DecodeFault::NotEvent);
        }
        let verb = words::verb(input)?;
        let kind = words::def_kind(input)?;
        let item = input.u16()?;
        let vdu = input.u16()?;
        let serial = input.u32()?;
        Ok(Change {
            phase,
            verb,
            def: Def {
                kind,
                item,
                vdu,
                serial,
            },
        })
    }
}

impl Read for Vnfc {
    ghost at = { λ _. vnfc_at };

    #[tactic(auto, unfolding(crate::specs::Readers::vnfc_at))]
    fn read(_alloc: Global, input: &mut Input, _numbers: usize) -> Result<Vnfc, DecodeFault> {
        let vdu = input.u16()?;
        let serial = input.u32()?;
        Ok(Vnfc { vdu, serial })
    }
}

impl Read for AspectLevel {
    ghost at = { λ _. aspect_level_at };

    #[tactic(auto, unfolding(crate::specs::Readers::aspect_level_at))]
    fn read(
        _alloc: Global,
        input: &mut Input,
        _numbers: usize,
    ) -> Result<AspectLevel, DecodeFault> {
        let aspect = input.name()?;
        let level = input.u32()?;
        Ok(AspectLevel { aspect, level })
    }
}

/// What SCALE_TO_LEVEL aims at.
#[tactic(auto, unfolding(crate::specs::Readers::aim_at))]
fn aim(alloc: Global, input: &mut Input) -> Result<Aim, DecodeFault>
    ensures { Gives input.new result (aim_at input.old) }
{
    match input.u8()? {
        0 => Ok(Aim::Level(input.name()?)),
        1 => Ok(Aim::Aspects(many(alloc, input, 0)?)),
        _ => Err(DecodeFault::NotEvent),
    }
}

/// What an operation is asked to do.
#[tactic(auto, unfolding(crate::specs::Readers::ask_at))]
fn ask(alloc: Global, input: &mut Input) -> Result<Ask, DecodeFault>
    ensures { Gives input.new result (ask_at input.old) }
{
    match input.u8()? {
        1 => {
            let flavour = input.name()?;
            let level = optional(alloc, input)?;
            Ok(Ask::Instantiate { flavour, level })
        }
        2 => {
            let way = words::scale_way(input)?;
            let aspect = input.name()?;
            let steps = input.u32()?;
            Ok(Ask::Scale { way, aspect, steps })
        }
        3 => Ok(Ask::ScaleToLevel(aim(alloc, input)?)),
        4 => {
            let cause = optional(alloc, input)?;
            let named = many(alloc, input, 0)?;
            Ok(Ask::Heal { cause, named })
        }
        5 => {
            let started = words::started(input)?;
            let stop = words::stop_type(input)?;
            Ok(Ask::Operate { started, stop })
        }
        6 => {
            let mode = words::terminate_mode(input)?;
            let timeout = optional(alloc, input)?;
            Ok(Ask::Terminate { mode, timeout })
        }
        _ => Err(DecodeFault::NotEvent),
    }
}

/// An operation that was asked for.
#[tactic(auto, unfolding(crate::specs::Readers::operation_at))]
pub(crate) fn operation(alloc: Global, input: &mut Input) -> Result<Operation, DecodeFault>
    ensures { Gives input.new result (operation_at input.old) }
{
    let occ = input.u64()?;
    let instance = input.u64()?;
    let role = words::role(input)?;
    let ask = ask(alloc, input)?;
    let changes = many(alloc, input, 0)?;
    Ok(Operation {
        occ,
        instance,
        role,
        ask,
        changes,
    })
}

/// An answer that is no grant.
#[tactic(auto, unfolding(crate::specs::Readers::grant_try_at))]
pub(crate) fn grant_try(alloc: Global, input: &mut Input) -> Result<GrantTry, DecodeFault>
    ensures { Gives input.new result (grant_try_at input.old) }
{
    match input.u8()? {
        0 => Ok(GrantTry::Later(input.line(alloc)?)),
        1 => Ok(GrantTry::Trouble),
        2 => Ok(GrantTry::NotCovering),
        _ => Err(DecodeFault::NotEvent),
    }
}

impl Read for Place {
    ghost at = { λ _. place_at };

    #[tactic(auto, unfolding(crate::specs::Readers::place_at))]
    fn read(_alloc: Global, input: &mut Input, _numbers: usize) -> Result<Place, DecodeFault> {
        let vim = input.name()?;
        let zone = input.name()?;
        Ok(Place { vim, zone })
    }
}

/// The places of a grant, and the numbers that name them.
#[tactic(auto, unfolding(crate::specs::Readers::placed_at))]
pub(crate) fn placed(
    alloc: Global,
    input: &mut Input,
) -> Result<(Listed<Place>, Listed<u8>), DecodeFault>
    ensures { Gives input.new result (placed_at input.old) }
{
    let places = few(alloc, input)?;
    let spots = many(alloc, input, 0)?;
    if !name_places(&places, &spots) {
        return Err(DecodeFault::NotEvent);
    }
    Ok((places, spots))
}

/// Whether each number names one of the places.
fn name_places(places: &Listed<Place>, spots: &Listed<u8>) -> bool
    ensures { result ≡ list_all (λ s. nat_lt s (length places.now)) spots.now }
{
    let most = places.len();
    spots.as_slice().iter().all(|spot| (*spot as usize) < most)
}

/// How an attempt ended.
#[tactic(auto, unfolding(crate::specs::Readers::outcome_at))]
pub(crate) fn outcome(input: &mut Input) -> Result<Outcome, DecodeFault>
    ensures { Gives input.new result (outcome_at input.old) }
{
    match input.u8()? {
        0 => Ok(Outcome::Done(input.name()?)),
        1 => Ok(Outcome::Broken(input.u32()?)),
        2 => Ok(Outcome::Aborted),
        3 => Ok(Outcome::NotBegun),
        _ => Err(DecodeFault::NotEvent),
    }
}

/// The filter of a subscription.
#[tactic(auto, unfolding(crate::specs::Readers::filter_at))]
pub(crate) fn filter(alloc: Global, input: &mut Input) -> Result<Filter, DecodeFault>
    ensures { Gives input.new result (filter_at input.old) }
{
    let vnfds = many(alloc, input, 0)?;
    let instances = many(alloc, input, 0)?;
    let names = many(alloc, input, 0)?;
    let notices = many(alloc, input, 0)?;
    let operations = many(alloc, input, 0)?;
    let states = many(alloc, input, 0)?;
    Ok(Filter {
        vnfds,
        instances,
        names,
        notices,
        operations,
        states,
    })
}
