//! The levels that an ask aims at.

ghost use Rattle.std.specs.Prelude.{◌≡◌, IfOk, length, min, option_copied, option_map, find, zip, if◌then◌else◌};
ghost use Rattle.lcm_events.specs.Same.{same_name};
ghost use Rattle.lcm_model.specs.Levels.{is_aspect, at_aspect, level_of, moved_by, to_level};

use lcm_events::{Aspect, ScaleWay, Vnfd};
use std::alloc::{AllocError, Global};
use vnfm_base::Name;

/// A level moved out or in by steps, not past its aspect's maximum.
fn moved_level(way: ScaleWay, steps: u32, level: u32, maximum: u32) -> u32
    ensures { result ≡ min (moved_by way steps level) maximum }
{
    match way {
        ScaleWay::Out => level.saturating_add(steps).min(maximum),
        ScaleWay::In => level.saturating_sub(steps).min(maximum),
    }
}

/// The level that an aspect has once that of this name is moved by steps.
fn stepped_level(aspect: &Aspect, name: &Name, way: ScaleWay, steps: u32, level: u32) -> u32
    ensures { result ≡ (if same_name aspect.now.name name.now then min (moved_by way steps level) aspect.now.maximum
        else level) }
{
    if aspect.name == *name {
        moved_level(way, steps, level, aspect.maximum)
    } else {
        level
    }
}

/// The levels, with that of the named aspect moved out or in by steps.
///
/// Source: docs/MODEL.md, "Counts and levels".
pub fn stepped_levels(
    alloc: Global,
    aspects: &[Aspect],
    levels: &[u32],
    name: &Name,
    way: ScaleWay,
    steps: u32,
) -> Result<Vec<u32>, AllocError>
    requires { length levels.now ≡ length aspects.now }
    ensures { IfOk result (λ v. v.items ≡ at_aspect aspects.now name.now (moved_by way steps) levels.now) }
{
    let mut moved = Vec::new(alloc);
    for (at, aspect) in aspects.iter().enumerate() {
        moved.push(stepped_level(aspect, name, way, steps, levels[at]))?;
    }
    Ok(moved)
}

/// The level that an aspect has once that of this name is replaced.
fn replaced_level(aspect: &Aspect, name: &Name, level: u32, before: u32) -> u32
    ensures { result ≡ (if same_name aspect.now.name name.now then min (to_level level before) aspect.now.maximum
        else before) }
{
    if aspect.name == *name {
        level.min(aspect.maximum)
    } else {
        before
    }
}

/// The levels, with that of the named aspect replaced.
///
/// Source: docs/MODEL.md, "Counts and levels".
pub fn replaced_levels(
    alloc: Global,
    aspects: &[Aspect],
    levels: &[u32],
    name: &Name,
    level: u32,
) -> Result<Vec<u32>, AllocError>
    requires { length levels.now ≡ length aspects.now }
    ensures { IfOk result (λ v. v.items ≡ at_aspect aspects.now name.now (to_level level) levels.now) }
{
    let mut replaced = Vec::new(alloc);
    for (at, aspect) in aspects.iter().enumerate() {
        replaced.push(replaced_level(aspect, name, level, levels[at]))?;
    }
    Ok(replaced)
}

/// The levels of the instantiation level of this name.
///
/// Source: docs/MODEL.md, "Counts and levels".
pub fn level_named<'a>(vnfd: &'a Vnfd, name: &Name) -> Option<&'a [u32]>
    ensures { option_copied result ≡ level_of vnfd.now name.now }
{
    for level in vnfd.levels.as_slice() {
        if level.name == *name {
            return Some(level.numbers.as_slice());
        }
    }
    None
}

/// Whether an aspect with its level has this name.
#[tactic(auto, unfolding(crate::specs::Levels::is_aspect))]
fn has_name(name: &Name, aspect: &Aspect, level: u32) -> bool
    ensures { result ≡ is_aspect name.now (aspect.now, level) }
{
    let _level = level;
    aspect.name == *name
}

/// The maximum and the level of the aspect of this name.
///
/// Source: docs/MODEL.md, "Counts and levels".
pub fn aspect_of(aspects: &[Aspect], levels: &[u32], name: &Name) -> Option<(u32, u32)>
    requires { length levels.now ≡ length aspects.now }
    ensures { result ≡ option_map (λ a. (a.0.maximum, a.1)) (find (is_aspect name.now) (zip aspects.now levels.now)) }
{
    for (at, aspect) in aspects.iter().enumerate() {
        let level = levels[at];
        if has_name(name, aspect, level) {
            return Some((aspect.maximum, level));
        }
    }
    None
}
