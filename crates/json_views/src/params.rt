//! What an operation was asked for with, as its view shows it.
ghost use Rattle.std.specs.Prelude.{◌≡◌, [], IfOk, OnOk, codes, option_map, true};
ghost use Rattle.serde_json.specs.View.{members_view, view};
ghost use Rattle.serde_json.specs.Data.{object};
ghost use Rattle.lcm_events.specs.declared.asks.Aim.TheVariants.{Aspects, Level};
ghost use Rattle.json_members.specs.Members.{put_where};
ghost use Rattle.json_views.specs.Params.{aim_params, heal_params, instantiate_params, machine_value, named_where};
ghost use Rattle.json_views.specs.Params.{operate_params, params, scale_params, stop_where, terminate_params};

use crate::members::{
    Shows, put_array, put_line_where, put_name_where, put_text, put_where, text_value,
};
use crate::rows::{Levels, machine_id};
use crate::words::{power_word, stop_word, way_word};
use lcm_events::{Aim, Ask, AspectLevel, ScaleWay, StopType, Vnfc, Vnfd};
use serde_json::{Map, Value, put};
use std::alloc::{AllocError, Global};
use vnfm_base::{Line, Name};

/// The members of the request's body that the ask has.
///
/// Source: SOL 003 5.5.2.13 (VnfLcmOpOcc, operationParams).
pub fn params_value(alloc: Global, vnfd: &Vnfd, ask: &Ask) -> Result<Value, AllocError>
    ensures { IfOk result (λ value. view value ≡ object (params vnfd.now ask.now)) }
{
    let mut members = Map::new(alloc);
    put_params(&mut members, alloc, vnfd, ask)?;
    Ok(Value::Object(members))
}

/// Puts these members, where there is none.
fn put_params(
    members: &mut Map<String, Value>,
    alloc: Global,
    vnfd: &Vnfd,
    ask: &Ask,
) -> Result<(), AllocError>
    requires empty { members.old.entries ≡ [] }
    ensures { OnOk result (members_view members.new.entries ≡ params vnfd.now ask.now) }
{
    match ask {
        Ask::Instantiate { flavour, level } => put_instantiate(members, alloc, flavour, level),
        Ask::Scale { way, aspect, steps } => put_scale(members, alloc, *way, aspect, *steps),
        Ask::ScaleToLevel(aim) => put_aim(members, alloc, aim),
        Ask::Heal { cause, named } => put_heal(members, alloc, vnfd, cause, named.as_slice()),
        Ask::Operate { started, stop } => put_operate(members, alloc, *started, *stop),
        Ask::Terminate { mode, timeout } => put_terminate(members, alloc, *mode, *timeout),
    }
}

fn put_instantiate(
    members: &mut Map<String, Value>,
    alloc: Global,
    flavour: &Name,
    level: &Option<Name>,
) -> Result<(), AllocError>
    requires empty { members.old.entries ≡ [] }
    ensures { OnOk result (members_view members.new.entries ≡ instantiate_params flavour.now level.now) }
{
    put_text(members, alloc, "flavourId", flavour.as_str())?;
    put_name_where(members, alloc, "instantiationLevelId", level)
}

fn put_scale(
    members: &mut Map<String, Value>,
    alloc: Global,
    way: ScaleWay,
    aspect: &Name,
    steps: u32,
) -> Result<(), AllocError>
    requires empty { members.old.entries ≡ [] }
    ensures { OnOk result (members_view members.new.entries ≡ scale_params way aspect.now steps) }
{
    put_text(members, alloc, "aspectId", aspect.as_str())?;
    put(members, alloc, "numberOfSteps", Value::from(steps))?;
    put_text(members, alloc, "type", way_word(way))
}

fn put_aim(members: &mut Map<String, Value>, alloc: Global, aim: &Aim) -> Result<(), AllocError>
    requires empty { members.old.entries ≡ [] }
    ensures { OnOk result (members_view members.new.entries ≡ aim_params aim.now) }
{
    match aim {
        Aim::Level(level) => put_text(members, alloc, "instantiationLevelId", level.as_str()),
        Aim::Aspects(levels) => put_aspects(members, alloc, levels.as_slice()),
    }
}

fn put_aspects(
    members: &mut Map<String, Value>,
    alloc: Global,
    levels: &[AspectLevel],
) -> Result<(), AllocError>
    requires empty { members.old.entries ≡ [] }
    ensures { OnOk result (members_view members.new.entries ≡ aim_params (Aspects levels.now)) }
{
    put_array(members, alloc, "scaleInfo", levels, &Levels {})
}

fn put_heal(
    members: &mut Map<String, Value>,
    alloc: Global,
    vnfd: &Vnfd,
    cause: &Option<Line>,
    named: &[Vnfc],
) -> Result<(), AllocError>
    requires empty { members.old.entries ≡ [] }
    ensures { OnOk result (members_view members.new.entries ≡ heal_params vnfd.now cause.now named.now) }
{
    put_line_where(members, alloc, "cause", cause)?;
    put_named(members, alloc, vnfd, named)
}

/// Puts the machines that are named, where some are.
fn put_named(
    members: &mut Map<String, Value>,
    alloc: Global,
    vnfd: &Vnfd,
    named: &[Vnfc],
) -> Result<(), AllocError>
    ensures { OnOk result (members_view members.new.entries
        ≡ put_where (codes "vnfcInstanceId") (named_where vnfd.now named.now) (members_view members.old.entries)) }
{
    if named.is_empty() {
        Ok(())
    } else {
        put_array(members, alloc, "vnfcInstanceId", named, &Machines { vnfd })
    }
}

fn put_operate(
    members: &mut Map<String, Value>,
    alloc: Global,
    started: bool,
    stop: Option<StopType>,
) -> Result<(), AllocError>
    requires empty { members.old.entries ≡ [] }
    ensures { OnOk result (members_view members.new.entries ≡ operate_params started stop) }
{
    put_text(members, alloc, "changeStateTo", power_word(started))?;
    put_stop(members, alloc, stop)
}

/// Puts how to stop, where that was said.
fn put_stop(
    members: &mut Map<String, Value>,
    alloc: Global,
    stop: Option<StopType>,
) -> Result<(), AllocError>
    ensures { OnOk result (members_view members.new.entries
        ≡ put_where (codes "stopType") (stop_where stop) (members_view members.old.entries)) }
{
    match stop {
        Some(stop) => put_text(members, alloc, "stopType", stop_word(stop)),
        None => Ok(()),
    }
}

fn put_terminate(
    members: &mut Map<String, Value>,
    alloc: Global,
    mode: StopType,
    timeout: Option<u32>,
) -> Result<(), AllocError>
    requires empty { members.old.entries ≡ [] }
    ensures { OnOk result (members_view members.new.entries ≡ terminate_params mode timeout) }
{
    put_text(members, alloc, "terminationType", stop_word(mode))?;
    let timeout = timeout.map(Value::from);
    put_where(members, alloc, "gracefulTerminationTimeout", timeout)
}

/// Machines by their identifiers.
#[derive(Clone, Copy)]
struct Machines<'a> {
    vnfd: &'a Vnfd,
}

impl Shows<Vnfc> for Machines<'_> {
    ghost IsReady = { λ s. Unit {0} };

    ghost has = { λ s x. true };

    ghost shown = { λ s x. machine_value s.vnfd.now x };

    fn has(&self, _machine: &Vnfc) -> bool {
        true
    }

    fn show(&self, alloc: Global, machine: &Vnfc) -> Result<Value, AllocError> {
        let id = machine_id(alloc, self.vnfd, machine.vdu, machine.serial)?;
        text_value(alloc, id.as_str())
    }
}
