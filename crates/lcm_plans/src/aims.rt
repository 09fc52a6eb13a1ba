//! The levels that an ask aims at.

ghost use Rattle.std.specs.Prelude.{◌≡◌, IfOk, IfSome, option_copied, true};
ghost use Rattle.lcm_model.specs.Levels.{aimed, asked_level, at_aspect, default_level, level_of, moved_by, replaced};
ghost use Rattle.lcm_model.specs.Levels.{target, to_level};
ghost use Rattle.lcm_model.specs.Instances.{levels};
ghost use Rattle.lcm_model.specs.Descriptors.{IsValid, are_levels_of};

use lcm_events::{Aim, Ask, AspectLevel, ScaleWay, Vnfd};
use lcm_model::{level_named, replaced_levels, stepped_levels};
use std::alloc::{AllocError, Global};
use vnfm_base::Name;

/// A copy of some numbers.
fn copied(alloc: Global, numbers: &[u32]) -> Result<Vec<u32>, AllocError>
    ensures { IfOk result (λ v. v.items ≡ numbers.now) }
{
    let mut copy = Vec::new(alloc);
    copy.extend_from_slice(numbers)?;
    Ok(copy)
}

/// The levels of the instantiation level of this name.
fn named_in<'a>(vnfd: &'a Vnfd, name: &Name) -> Option<&'a [u32]>
    requires { IsValid vnfd.now }
    ensures value { option_copied result ≡ level_of vnfd.now name.now }
    ensures levels { IfSome result (λ l. are_levels_of vnfd.now l.now ≡ true) }
{
    level_named(vnfd, name)
}

/// The levels of the default instantiation level.
#[tactic(auto, using(lcm_model::proofs::LevelLaws::default_levels))]
fn default_in(vnfd: &Vnfd) -> &[u32]
    requires { IsValid vnfd.now }
    ensures value { result.now ≡ default_level vnfd.now }
    ensures levels { are_levels_of vnfd.now result.now ≡ true }
{
    match vnfd.levels.as_slice().get(vnfd.default_level as usize) {
        Some(level) => level.numbers.as_slice(),
        None => &[],
    }
}

/// The levels that INSTANTIATE aims at.
fn asked_in<'a>(vnfd: &'a Vnfd, level: &Option<Name>) -> &'a [u32]
    requires { IsValid vnfd.now }
    ensures value { result.now ≡ asked_level vnfd.now level.now }
    ensures levels { are_levels_of vnfd.now result.now ≡ true }
{
    match level {
        Some(name) => match named_in(vnfd, name) {
            Some(numbers) => numbers,
            None => default_in(vnfd),
        },
        None => default_in(vnfd),
    }
}

/// The present levels, with those of the named aspects replaced.
fn replaced_in(
    alloc: Global,
    vnfd: &Vnfd,
    levels: &[u32],
    named: &[AspectLevel],
) -> Result<Vec<u32>, AllocError>
    requires { are_levels_of vnfd.now levels.now ≡ true }
    ensures value { IfOk result (λ v. v.items ≡ replaced vnfd.now levels.now named.now) }
    ensures levels { IfOk result (λ v. are_levels_of vnfd.now v.items ≡ true) }
{
    let mut now = copied(alloc, levels)?;
    for x in named {
        now = with_level(alloc, vnfd, now.as_slice(), x)?;
    }
    Ok(now)
}

/// The levels, with that of a named aspect replaced.
#[tactic(auto, using(lcm_model::proofs::LevelLaws::levels_length, lcm_model::proofs::LevelLaws::at_levels))]
fn with_level(
    alloc: Global,
    vnfd: &Vnfd,
    levels: &[u32],
    x: &AspectLevel,
) -> Result<Vec<u32>, AllocError>
    requires { are_levels_of vnfd.now levels.now ≡ true }
    ensures value { IfOk result (λ v. v.items ≡ at_aspect vnfd.now.aspects x.now.aspect
        (to_level x.now.level) levels.now) }
    ensures levels { IfOk result (λ v. are_levels_of vnfd.now v.items ≡ true) }
{
    replaced_levels(alloc, vnfd.aspects.as_slice(), levels, &x.aspect, x.level)
}

/// The levels, with that of the aspect of this name moved out or in by steps.
#[tactic(auto, using(lcm_model::proofs::LevelLaws::levels_length, lcm_model::proofs::LevelLaws::at_levels))]
fn moved_in(
    alloc: Global,
    vnfd: &Vnfd,
    levels: &[u32],
    way: ScaleWay,
    aspect: &Name,
    steps: u32,
) -> Result<Vec<u32>, AllocError>
    requires { are_levels_of vnfd.now levels.now ≡ true }
    ensures value { IfOk result (λ v. v.items ≡ at_aspect vnfd.now.aspects aspect.now (moved_by way steps) levels.now) }
    ensures levels { IfOk result (λ v. are_levels_of vnfd.now v.items ≡ true) }
{
    stepped_levels(alloc, vnfd.aspects.as_slice(), levels, aspect, way, steps)
}

/// The levels that SCALE_TO_LEVEL aims at.
fn aimed_in(alloc: Global, vnfd: &Vnfd, levels: &[u32], aim: &Aim) -> Result<Vec<u32>, AllocError>
    requires valid { IsValid vnfd.now }
    requires present { are_levels_of vnfd.now levels.now ≡ true }
    ensures value { IfOk result (λ v. v.items ≡ aimed vnfd.now levels.now aim.now) }
    ensures levels { IfOk result (λ v. are_levels_of vnfd.now v.items ≡ true) }
{
    match aim {
        Aim::Level(name) => match named_in(vnfd, name) {
            Some(numbers) => copied(alloc, numbers),
            None => copied(alloc, levels),
        },
        Aim::Aspects(named) => replaced_in(alloc, vnfd, levels, named.as_slice()),
    }
}

/// The levels that an ask aims at, from the present ones.
///
/// Source: SOL 003 5.4.4 to 5.4.10 (the tasks of an individual VNF instance).
pub fn target_in(
    alloc: Global,
    vnfd: &Vnfd,
    levels: &[u32],
    ask: &Ask,
) -> Result<Vec<u32>, AllocError>
    requires valid { IsValid vnfd.now }
    requires present { are_levels_of vnfd.now levels.now ≡ true }
    ensures value { IfOk result (λ v. v.items ≡ target vnfd.now levels.now ask.now) }
    ensures levels { IfOk result (λ v. are_levels_of vnfd.now v.items ≡ true) }
{
    match ask {
        Ask::Instantiate { level, .. } => copied(alloc, asked_in(vnfd, level)),
        Ask::Scale { way, aspect, steps } => moved_in(alloc, vnfd, levels, *way, aspect, *steps),
        Ask::ScaleToLevel(aim) => aimed_in(alloc, vnfd, levels, aim),
        _ => copied(alloc, levels),
    }
}
