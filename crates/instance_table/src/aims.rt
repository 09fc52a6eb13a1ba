//! The levels that an ask aims at.

ghost use Rattle.std.specs.Prelude.{◌≡◌, IfOk, length};
ghost use Rattle.lcm_model.specs.Levels.{aimed, asked_level, at_aspect, default_level, replaced, target, to_level};
ghost use Rattle.instance_table.specs.Steps.{aim_from};

use lcm_events::{Aim, Ask, AspectLevel, Levels, Listed, Vnfd};
use lcm_model::{level_named, replaced_levels, stepped_levels};
use std::alloc::{AllocError, Global};
use vnfm_base::Name;

/// The levels of the default instantiation level.
fn default_of(vnfd: &Vnfd) -> &[u32]
    ensures { result.now ≡ default_level vnfd.now }
{
    match vnfd.levels.as_slice().get(vnfd.default_level as usize) {
        Some(level) => level.numbers.as_slice(),
        None => &[],
    }
}

/// The levels that INSTANTIATE aims at.
fn asked_of<'a>(vnfd: &'a Vnfd, level: &Option<Name>) -> &'a [u32]
    ensures { result.now ≡ asked_level vnfd.now level.now }
{
    match level {
        Some(name) => match level_named(vnfd, name) {
            Some(numbers) => numbers,
            None => default_of(vnfd),
        },
        None => default_of(vnfd),
    }
}

/// The levels, with that of a named aspect replaced.
#[tactic(auto, using(lcm_model::proofs::LevelLaws::at_length))]
fn with_level(
    alloc: Global,
    vnfd: &Vnfd,
    levels: &[u32],
    named: &AspectLevel,
) -> Result<Vec<u32>, AllocError>
    requires { length levels.now ≡ length vnfd.now.aspects }
    ensures value { IfOk result (λ v. v.items ≡ at_aspect vnfd.now.aspects named.now.aspect
        (to_level named.now.level) levels.now) }
    ensures length { IfOk result (λ v. length v.items ≡ length vnfd.now.aspects) }
{
    replaced_levels(
        alloc,
        vnfd.aspects.as_slice(),
        levels,
        &named.aspect,
        named.level,
    )
}

/// The present levels, with those of the named aspects replaced.
fn replaced_of(
    alloc: Global,
    vnfd: &Vnfd,
    levels: &[u32],
    named: &[AspectLevel],
) -> Result<Vec<u32>, AllocError>
    requires { length levels.now ≡ length vnfd.now.aspects }
    ensures { IfOk result (λ v. v.items ≡ replaced vnfd.now levels.now named.now) }
{
    let mut now = levels.to_vec(alloc)?;
    for aspect in named {
        now = with_level(alloc, vnfd, now.as_slice(), aspect)?;
    }
    Ok(now)
}

/// The levels that SCALE_TO_LEVEL aims at.
fn aimed_of(alloc: Global, vnfd: &Vnfd, levels: &[u32], aim: &Aim) -> Result<Vec<u32>, AllocError>
    requires { length levels.now ≡ length vnfd.now.aspects }
    ensures { IfOk result (λ v. v.items ≡ aimed vnfd.now levels.now aim.now) }
{
    match aim {
        Aim::Level(name) => match level_named(vnfd, name) {
            Some(numbers) => numbers.to_vec(alloc),
            None => levels.to_vec(alloc),
        },
        Aim::Aspects(named) => replaced_of(alloc, vnfd, levels, named.as_slice()),
    }
}

/// The levels that an ask aims at, from the present ones.
fn target_of(alloc: Global, vnfd: &Vnfd, levels: &[u32], ask: &Ask) -> Result<Vec<u32>, AllocError>
    requires { length levels.now ≡ length vnfd.now.aspects }
    ensures { IfOk result (λ v. v.items ≡ target vnfd.now levels.now ask.now) }
{
    match ask {
        Ask::Instantiate { level, .. } => asked_of(vnfd, level).to_vec(alloc),
        Ask::Scale { way, aspect, steps } => {
            stepped_levels(alloc, vnfd.aspects.as_slice(), levels, aspect, *way, *steps)
        }
        Ask::ScaleToLevel(aim) => aimed_of(alloc, vnfd, levels, aim),
        _ => levels.to_vec(alloc),
    }
}

/// The levels that an ask aims at, from the present ones; none where those aren't one an aspect.
pub fn aim_from(alloc: Global, vnfd: &Vnfd, levels: &[u32], ask: &Ask) -> Result<Levels, AllocError>
    ensures { IfOk result (λ l. l ≡ aim_from vnfd.now levels.now ask.now) }
{
    if levels.len() != vnfd.aspects.len() {
        return Ok(Listed::new(alloc));
    }
    let aim = target_of(alloc, vnfd, levels, ask)?;
    Ok(Listed::of(aim))
}
