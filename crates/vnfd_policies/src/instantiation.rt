//! The instantiation levels, and why they are refused.
ghost use Rattle.std.specs.Prelude.{◌≡◌, IfOk, codes, find, map, option_and_then, option_map, unwrap_or, [], ◌∷◌};
ghost use Rattle.std.specs.List.{position_from};
ghost use Rattle.std.specs.Option.{option_map_or};
ghost use Rattle.std.specs.Str.{bytes_eq};
ghost use Rattle.serde_json.specs.Find.{as_str, get};
ghost use Rattle.serde_json.specs.View.{view};
ghost use Rattle.vnfd_document.specs.Checks.{Refuses, fault_of, first_failing};
ghost use Rattle.vnfd_document.specs.Json.{whole, within};
ghost use Rattle.vnfd_document.specs.Places.{property as the_property};
ghost use Rattle.vnfd_document.specs.Seen.{seen};
ghost use Rattle.vnfd_policies.specs.Levels.{default_by, default_name as the_default_name, default_name_by};
ghost use Rattle.vnfd_policies.specs.Levels.{default_name_in as the_default_name_in};
ghost use Rattle.vnfd_policies.specs.Levels.{default_number as the_default_number, default_of, default_refusal};
ghost use Rattle.vnfd_policies.specs.Levels.{default_text_refusal, first_name as the_first_name};
ghost use Rattle.vnfd_policies.specs.Levels.{level_of as the_level_of, level_of_refusal, level_refusal};
ghost use Rattle.vnfd_policies.specs.Levels.{levels_by as the_levels_by, levels_in as the_levels_in, levels_of};
ghost use Rattle.vnfd_policies.specs.Levels.{levels_refusal, none_refusal, number_at as the_number_at, number_refusal};
ghost use Rattle.vnfd_policies.specs.Levels.{policies_with_levels_refusal, policy_levels_refusal, scale_refusal};
ghost use Rattle.vnfd_policies.specs.Policies.{members_at};
ghost use Rattle.vnfd_policies.specs.ByType.{HaveAspects, HaveLevels};

use crate::bounds::LEVELS;
use crate::by_type::Policies;
use crate::scaling::{aspects_in, maximum};
use crate::words::{named, property, refuse_more, refuse_unknown};
use lcm_events::{Level, Listed};
use serde_json::Value;
use std::alloc::{AllocError, Global};
use vnfd_document::{
    Check, Entry, VnfdFault, at, first_of, is_same_text, label, members_in, name_or_empty, unknown,
    whole_in,
};

/// The first thing that is wrong with the instantiation levels: that there are two policies with levels, or none in the
/// one, or too many; the scale levels of each level in turn; the default level.
///
/// Source: SOL 001, tosca.policies.nfv.InstantiationLevels.
pub fn refuse_levels(alloc: Global, policies: &Policies) -> Result<(), VnfdFault>
    requires aspects { HaveAspects policies.now }
    requires levels { HaveLevels policies.now }
    ensures { Refuses result (levels_refusal (map seen policies.now.all.items)) }
{
    let aspects = aspects_in(alloc, policies)?;
    refuse_policies(alloc, aspects.as_slice(), policies.with_levels.as_slice())
}

fn refuse_policies(alloc: Global, aspects: &[Entry], policies: &[Entry]) -> Result<(), VnfdFault>
    ensures { Refuses result (policies_with_levels_refusal (map seen aspects.now) (map seen policies.now)) }
{
    match policies {
        [] => Ok(()),
        [policy] => refuse_policy(alloc, aspects, policy.value),
        _ => Err(VnfdFault::Wrong(label("levels"))),
    }
}

fn refuse_policy(alloc: Global, aspects: &[Entry], policy: &Value) -> Result<(), VnfdFault>
    ensures { Refuses result (policy_levels_refusal (map seen aspects.now) (view policy.now)) }
{
    let levels = levels_in(alloc, policy)?;
    refuse_none(levels.as_slice())?;
    refuse_more(LEVELS, "levels", levels.as_slice())?;
    refuse_each(alloc, aspects, levels.as_slice())?;
    refuse_default(levels.as_slice(), policy)
}

/// The levels of a policy, in byte order of their names.
fn levels_in<'a>(alloc: Global, policy: &'a Value) -> Result<Vec<Entry<'a>>, AllocError>
    ensures { IfOk result (λ found. map seen found.items ≡ the_levels_in (view policy.now)) }
{
    members_in(alloc, property(policy, "levels"))
}

/// There is a level.
fn refuse_none(levels: &[Entry]) -> Result<(), VnfdFault>
    ensures { fault_of result ≡ none_refusal (map seen levels.now) }
{
    match levels {
        [] => Err(VnfdFault::Lacks(label("levels"))),
        [_, ..] => Ok(()),
    }
}

/// Each level gives aspects levels within their greatest ones.
fn refuse_each(alloc: Global, aspects: &[Entry], levels: &[Entry]) -> Result<(), VnfdFault>
    ensures { Refuses result (first_failing (λ l. level_refusal (map seen aspects.now) l.1) (map seen levels.now)) }
{
    for level in levels {
        refuse_level(alloc, aspects, level.value)?;
    }
    Ok(())
}

fn refuse_level(alloc: Global, aspects: &[Entry], level: &Value) -> Result<(), VnfdFault>
    ensures { Refuses result (level_refusal (map seen aspects.now) (view level.now)) }
{
    let scales = members_in(alloc, level.get("scale_info"))?;
    refuse_scales(aspects, scales.as_slice())
}

fn refuse_scales(aspects: &[Entry], scales: &[Entry]) -> Result<(), VnfdFault>
    ensures { fault_of result ≡ first_failing (scale_refusal (map seen aspects.now)) (map seen scales.now) }
{
    for scale in scales {
        refuse_scale(aspects, scale)?;
    }
    Ok(())
}

/// A scale level is of an aspect, and a whole number to its greatest level.
fn refuse_scale(aspects: &[Entry], scale: &Entry) -> Result<(), VnfdFault>
    ensures { fault_of result ≡ scale_refusal (map seen aspects.now) (seen scale.now) }
{
    match named(aspects, scale.name) {
        Some(aspect) => refuse_number(maximum(aspect.value), scale.value),
        None => Err(unknown(scale.name)),
    }
}

fn refuse_number(most: u32, scale: &Value) -> Result<(), VnfdFault>
    ensures { fault_of result ≡ number_refusal most (view scale.now) }
{
    if scale_level(most, scale).is_none() {
        return Err(VnfdFault::Wrong(label("scale_level")));
    }
    Ok(())
}

fn scale_level(most: u32, scale: &Value) -> Option<u32>
    ensures { result ≡ option_and_then (whole 0 most) (get (codes "scale_level") (view scale.now)) }
{
    whole_in(0, most, scale.get("scale_level")?)
}

/// The default level is there where there are several levels, and names one of them.
fn refuse_default(levels: &[Entry], policy: &Value) -> Result<(), VnfdFault>
    ensures { fault_of result ≡ default_refusal (map seen levels.now)
        (the_property (codes "default_level") (view policy.now)) }
{
    match property(policy, "default_level") {
        Some(value) => refuse_default_name(levels, value),
        None if levels.len() <= 1 => Ok(()),
        None => Err(VnfdFault::Lacks(label("default_level"))),
    }
}

fn refuse_default_name(levels: &[Entry], value: &Value) -> Result<(), VnfdFault>
    ensures { fault_of result ≡ default_text_refusal (map seen levels.now) (as_str (view value.now)) }
{
    match value.as_str() {
        Some(name) => refuse_unknown(levels, name),
        None => Err(VnfdFault::Wrong(label("default_level"))),
    }
}

/// The levels: those of the policy that has some, and where there is none one level named `default` with every aspect
/// at 0.
///
/// Source: SOL 001, tosca.policies.nfv.InstantiationLevels; default: own rule.
#[tactic(auto, unfolding(crate::specs::Levels::levels_of))]
pub fn levels(alloc: Global, policies: &Policies) -> Result<Listed<Level>, AllocError>
    requires aspects { HaveAspects policies.now }
    requires levels { HaveLevels policies.now }
    ensures { IfOk result (λ found. found ≡ levels_of (map seen policies.now.all.items)) }
{
    let aspects = aspects_in(alloc, policies)?;
    match policies.with_levels.as_slice() {
        [] => only_level(alloc, aspects.as_slice()),
        [policy, ..] => levels_of_policy(alloc, aspects.as_slice(), policy.value),
    }
}

/// One level named `default`, with each aspect at 0.
fn only_level(alloc: Global, aspects: &[Entry]) -> Result<Listed<Level>, AllocError>
    ensures { IfOk result (λ found. found ≡ record {
      name = codes "default";
      numbers =
          map (λ a. 0) (map seen aspects.now);
    } ∷ []) }
{
    let numbers = zeros(alloc, aspects)?;
    let mut levels = Vec::new(alloc);
    levels.push(Level {
        name: label("default"),
        numbers: Listed::of(numbers),
    })?;
    Ok(Listed::of(levels))
}

/// A 0 for each aspect.
fn zeros(alloc: Global, aspects: &[Entry]) -> Result<Vec<u32>, AllocError>
    ensures { IfOk result (λ numbers. numbers.items ≡ map (λ a. 0) (map seen aspects.now)) }
{
    let mut numbers = Vec::new(alloc);
    for _aspect in aspects {
        numbers.push(0)?;
    }
    Ok(numbers)
}

fn levels_of_policy(
    alloc: Global,
    aspects: &[Entry],
    policy: &Value,
) -> Result<Listed<Level>, AllocError>
    ensures { IfOk result (λ found. found ≡ map (the_level_of (map seen aspects.now))
        (the_levels_in (view policy.now))) }
{
    let levels = levels_in(alloc, policy)?;
    each_level(alloc, aspects, levels.as_slice())
}

fn each_level(
    alloc: Global,
    aspects: &[Entry],
    levels: &[Entry],
) -> Result<Listed<Level>, AllocError>
    ensures { IfOk result (λ found. found ≡ map (the_level_of (map seen aspects.now)) (map seen levels.now)) }
{
    let mut found = Vec::new(alloc);
    for level in levels {
        found.push(level_of(alloc, aspects, level)?)?;
    }
    Ok(Listed::of(found))
}

fn level_of(alloc: Global, aspects: &[Entry], level: &Entry) -> Result<Level, AllocError>
    ensures { IfOk result (λ found. found ≡ the_level_of (map seen aspects.now) (seen level.now)) }
{
    let mut numbers = Vec::new(alloc);
    for aspect in aspects {
        numbers.push(number_at(level.value, aspect))?;
    }
    Ok(Level {
        name: name_or_empty(level.name),
        numbers: Listed::of(numbers),
    })
}

/// The scale level of an aspect at a level, and 0 where it gives none.
fn number_at(level: &Value, aspect: &Entry) -> u32
    ensures { result ≡ the_number_at (view level.now) (seen aspect.now) }
{
    match at(level, &["scale_info", aspect.name, "scale_level"]) {
        Some(value) => whole_in(0, maximum(aspect.value), value).unwrap_or(0),
        None => 0,
    }
}

/// The name of the default level.
pub fn default_name<'a>(alloc: Global, policies: &Policies<'a>) -> Result<&'a str, AllocError>
    requires levels { HaveLevels policies.now }
    ensures { IfOk result (λ name. name.now ≡ the_default_name (map seen policies.now.all.items)) }
{
    match policies.with_levels.as_slice() {
        [] => Ok("default"),
        [policy, ..] => default_name_in(alloc, policy.value),
    }
}

/// The name of the default level of a policy: the one that it names, else its first level's.
fn default_name_in<'a>(alloc: Global, policy: &'a Value) -> Result<&'a str, AllocError>
    ensures { IfOk result (λ name. name.now ≡ the_default_name_in (view policy.now)) }
{
    if let Some(name) = default_text(policy) {
        return Ok(name);
    }
    let levels = levels_in(alloc, policy)?;
    Ok(first_name(levels.as_slice()))
}

/// The text of a policy's default level.
fn default_text(policy: &Value) -> Option<&str>
    ensures { option_map (λ name. name.now) result ≡ option_and_then as_str
        (the_property (codes "default_level") (view policy.now)) }
{
    property(policy, "default_level")?.as_str()
}

fn first_name<'a>(levels: &[Entry<'a>]) -> &'a str
    ensures { result.now ≡ the_first_name (map seen levels.now) }
{
    match levels {
        [] => "",
        [level, ..] => level.name,
    }
}

/// The number of the default level among the levels.
///
/// Source: SOL 001, tosca.policies.nfv.InstantiationLevels, default_level; default: own rule.
#[tactic(auto, unfolding(crate::specs::Levels::default_of))]
pub fn default_level(alloc: Global, policies: &Policies) -> Result<u16, AllocError>
    requires levels { HaveLevels policies.now }
    ensures { IfOk result (λ n. n ≡ default_of (map seen policies.now.all.items)) }
{
    match policies.with_levels.as_slice() {
        [] => Ok(0),
        [policy, ..] => default_number(alloc, policy.value),
    }
}

fn default_number(alloc: Global, policy: &Value) -> Result<u16, AllocError>
    ensures { IfOk result (λ n. n ≡ the_default_number (view policy.now)) }
{
    let levels = levels_in(alloc, policy)?;
    let name = default_name_in(alloc, policy)?;
    Ok(number_of(levels.as_slice(), name))
}

/// The number of the level of this name, where it has 16 bits, else 0.
fn number_of(levels: &[Entry], name: &str) -> u16
    ensures { result ≡ unwrap_or (option_and_then (within 0 65535)
        (position_from (λ l. bytes_eq l.0 name.now) 0 (map seen levels.now))) 0 }
{
    match place_of(levels, name) {
        Some(place) if place <= 65_535 => place as u16,
        _ => 0,
    }
}

fn place_of(levels: &[Entry], name: &str) -> Option<usize>
    ensures { result ≡ position_from (λ l. bytes_eq l.0 name.now) 0 (map seen levels.now) }
{
    let mut place = 0;
    for level in levels {
        if is_same_text(level.name, name) {
            return Some(place);
        }
        place += 1;
    }
    None
}
