//! The bodies that ask for an instance to be grown or shrunk.
ghost use Rattle.std.specs.Prelude.{◌≡◌, IfOk, IsOk, Some, codes, is_some, option_map};
ghost use Rattle.std.specs.List.{list_all};
ghost use Rattle.serde_json.specs.Find.{as_object};
ghost use Rattle.serde_json.specs.View.{items_view, view};
ghost use Rattle.json_bodies.specs.Body.{Gives};
ghost use Rattle.json_bodies.specs.Forms.{items_in, objects_in};
ghost use Rattle.json_bodies.specs.Operations.{aspect_level_in, each_read, levels_in, scale_in, scale_of};
ghost use Rattle.json_bodies.specs.Operations.{scale_to_level_in, scale_to_level_of};
ghost use Rattle.json_bodies.specs.Tables.{fault_in};

use crate::body::{BodyFault, object};
use crate::forms::{AnyName, SomeName, label, member, needed, optional};
use crate::lists::WholeNumber;
use crate::words::AnyScaleWay;
use lcm_events::{Aim, AspectLevel, Listed, ScaleWay};
use serde_json::Value;
use std::alloc::Global;
use vnfm_base::Name;

/// The body of a scale request.
///
/// Source: SOL 003 5.5.2.5 (ScaleVnfRequest).
#[derive(Drop)]
pub struct ScaleBody {
    /// `type`.
    pub way: ScaleWay,
    /// `aspectId`, not empty.
    pub aspect: Name,
    /// `numberOfSteps`, 1 where none is said.
    pub steps: u32,
}

/// Reads the body of a scale request.
///
/// Refusals: `Malformed` exactly where the bytes are no JSON object; `Lacks` and `Wrong` with the first member that
/// fails, in the order `type`, which is SCALE_OUT or SCALE_IN, `aspectId`, `numberOfSteps`, a whole number to
/// 4,294,967,295; `Memory`, where there was none to read the bytes as JSON.
/// Source: SOL 003 5.5.2.5 (ScaleVnfRequest).
pub fn read_scale(alloc: Global, bytes: &[u8]) -> Result<ScaleBody, BodyFault>
    ensures { Gives result (scale_of bytes.now) }
{
    let value = object(alloc, bytes)?;
    scale_body(alloc, &value)
}

fn scale_body(alloc: Global, value: &Value) -> Result<ScaleBody, BodyFault>
    ensures gives { Gives result (scale_in (view value.now)) }
    ensures memory { result ≡ Err BodyFault.Memory → IsOk (scale_in (view value.now)) }
{
    let way = needed(alloc, value, "type", &AnyScaleWay {})?;
    let aspect = needed(alloc, value, "aspectId", &SomeName {})?;
    let steps = optional(alloc, value, "numberOfSteps", &WholeNumber {})?;
    Ok(ScaleBody {
        way,
        aspect,
        steps: steps.unwrap_or(1),
    })
}

/// Reads the body of a request to scale to a level: the name of an instantiation level, or levels of aspects.
///
/// Refusals: `Malformed` exactly where the bytes are no JSON object; `Wrong` for `instantiationLevelId`, which is a
/// name; for `scaleInfo` `Wrong`, where it is no list of objects, or `Lacks` and `Wrong` with the first member of the
/// first object that fails, in the order `aspectId`, `scaleLevel`, a whole number to 4,294,967,295; then `Lacks` for
/// `instantiationLevelId`, where neither of the two is there, and `Wrong` for `scaleInfo`, where both are; `Memory`,
/// where there was none to read the bytes as JSON, or for a body that would be taken.
/// Source: SOL 003 5.5.2.6 (ScaleVnfToLevelRequest).
pub fn read_scale_to_level(alloc: Global, bytes: &[u8]) -> Result<Aim, BodyFault>
    ensures { Gives result (scale_to_level_of bytes.now) }
{
    let value = object(alloc, bytes)?;
    scale_to_level_body(alloc, &value)
}

fn scale_to_level_body(alloc: Global, value: &Value) -> Result<Aim, BodyFault>
    ensures gives { Gives result (scale_to_level_in (view value.now)) }
    ensures memory { result ≡ Err BodyFault.Memory → IsOk (scale_to_level_in (view value.now)) }
{
    let level = optional(alloc, value, "instantiationLevelId", &AnyName {})?;
    match (level, member(value, "scaleInfo")) {
        (Some(level), None) => Ok(Aim::Level(level)),
        (None, Some(info)) => Ok(Aim::Aspects(levels(alloc, info)?)),
        (None, None) => Err(BodyFault::Lacks(label("instantiationLevelId"))),
        (Some(_), Some(info)) => {
            checked(alloc, info)?;
            Err(BodyFault::Wrong(label("scaleInfo")))
        }
    }
}

/// The levels of aspects that the value of `scaleInfo` says. Memory is taken once all of them are found to be good.
fn levels(alloc: Global, info: &Value) -> Result<Listed<AspectLevel>, BodyFault>
    ensures gives { Gives result (levels_in (codes "scaleInfo") (view info.now)) }
    ensures memory { result ≡ Err BodyFault.Memory → IsOk (levels_in (codes "scaleInfo") (view info.now)) }
{
    let entries = checked(alloc, info)?;
    levels_of(alloc, entries)
}

/// The entries of `scaleInfo`, each found to be good, without memory.
fn checked<'a>(alloc: Global, info: &'a Value) -> Result<&'a [Value], BodyFault>
    ensures fault { fault_in result ≡ fault_in (levels_in (codes "scaleInfo") (view info.now)) }
    ensures entries { IfOk result (λ entries. objects_in (view info.now)
        ≡ Some (items_in (items_view entries.now))) }
    ensures memory { ¬ (result ≡ Err BodyFault.Memory) }
{
    let Some(entries) = objects(info) else {
        return Err(BodyFault::Wrong(label("scaleInfo")));
    };
    for entry in entries {
        aspect_level(alloc, entry)?;
    }
    Ok(entries)
}

/// The entries of a list of objects.
fn objects(value: &Value) -> Option<&[Value]>
    ensures { option_map (λ entries. items_in (items_view entries.now)) result ≡ objects_in (view value.now) }
{
    let entries = value.as_array()?.as_slice();
    if are_objects(entries) {
        Some(entries)
    } else {
        None
    }
}

fn are_objects(entries: &[Value]) -> bool
    ensures { result ≡ list_all (λ d. is_some (as_object d)) (items_in (items_view entries.now)) }
{
    for entry in entries {
        if !entry.is_object() {
            return false;
        }
    }
    true
}

/// The levels of aspects that objects say, in a list with just the room.
fn levels_of(alloc: Global, entries: &[Value]) -> Result<Listed<AspectLevel>, BodyFault>
    ensures { Gives result (each_read aspect_level_in (items_in (items_view entries.now))) }
{
    let Ok(mut levels) = Vec::with_capacity(alloc, entries.len()) else {
        return Err(BodyFault::Memory);
    };
    for entry in entries {
        let level = aspect_level(alloc, entry)?;
        if levels.push(level).is_err() {
            return Err(BodyFault::Memory);
        }
    }
    Ok(Listed::of(levels))
}

/// The level of an aspect. It takes no memory.
fn aspect_level(alloc: Global, entry: &Value) -> Result<AspectLevel, BodyFault>
    ensures { result ≡ aspect_level_in (view entry.now) }
{
    let aspect = needed(alloc, entry, "aspectId", &SomeName {})?;
    let level = needed(alloc, entry, "scaleLevel", &WholeNumber {})?;
    Ok(AspectLevel { aspect, level })
}
