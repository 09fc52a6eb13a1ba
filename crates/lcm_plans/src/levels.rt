//! How many machines a level means, and which levels steps lead to: each answer equals the definition of lcm_model.
ghost use Rattle.std.specs.Prelude.{◌≡◌, ◌↔◌, ◌<◌, ◌+◌, IsTrue, IfErr, IfOk, IsSomeAnd, length, true, ℕ};
ghost use Rattle.lcm_model.specs.Levels.{aspect_at, at_aspect, count, level_of as levels_named, moved_by, target};
ghost use Rattle.lcm_model.specs.Descriptors.{IsValid, are_levels_of};
ghost use Rattle.lcm_plans.specs.Steps.{IsAbove, IsBelow, LacksAspect, LeadsAbove, LeadsBelow};

use crate::aims::target_in;
use lcm_events::{Ask, Holding, Levels, Listed, ScaleWay, Vnfd};
use std::alloc::Global;
use thiserror::Error;
use vnfm_base::Name;

/// Why there are no such levels.
#[derive(Debug, Drop, Error)]
pub enum LevelFault {
    /// The descriptor has no instantiation level of this name.
    #[error("no such instantiation level")]
    NoLevel,
    /// There is no memory for the levels.
    #[error("no memory")]
    Memory,
}

/// Why steps lead to no levels.
#[derive(Debug, Drop, Error)]
pub enum StepFault {
    /// The descriptor has no aspect of this name.
    #[error("no such aspect")]
    NoAspect,
    /// The steps lead below level 0.
    #[error("scale level below zero")]
    BelowZero,
    /// The steps lead above the aspect's maximum, which is this.
    #[error("scale level above {0}")]
    AboveMax(u32),
    /// There is no memory for the levels.
    #[error("no memory")]
    Memory,
}

/// Whether a descriptor is valid: its lists, names, numbers and levels are as the limits and the order say.
///
/// Source: own limits over SOL 001, docs/MODEL.md, "A valid descriptor".
pub fn vnfd_valid(vnfd: &Vnfd) -> bool
    ensures { IsTrue result ↔ IsValid vnfd.now }
{
    lcm_model::is_valid(vnfd)
}

/// The machines of a VDU at these levels: its initial delta and, over all aspects, what the steps up to the level add.
/// It takes no memory.
///
/// Source: SOL 001, tosca.policies.nfv.VduInitialDelta and tosca.policies.nfv.VduScalingAspectDeltas.
pub fn count(vnfd: &Vnfd, vdu: u16, levels: &Levels) -> u32
    requires valid { IsValid vnfd.now }
    requires known { vdu < length vnfd.now.vdus }
    requires levels { are_levels_of vnfd.now levels.now ≡ true }
    ensures { result ≡ count vnfd.now vdu levels.now }
{
    lcm_model::count_in(vnfd, vdu, levels.as_slice())
}

/// The levels of the instantiation level of this name.
///
/// Refusals, in this order: `NoLevel` exactly where the descriptor has none; `Memory`.
/// Source: SOL 001, tosca.policies.nfv.InstantiationLevels.
pub fn level_of(alloc: Global, vnfd: &Vnfd, id: &Name) -> Result<Levels, LevelFault>
    requires { IsValid vnfd.now }
    ensures found { IfOk result (λ levels. levels_named vnfd.now id.now ≡ Some levels) }
    ensures no_level { (result ≡ Err LevelFault.NoLevel) ↔ (levels_named vnfd.now id.now ≡ None) }
{
    let Some(numbers) = lcm_model::level_named(vnfd, id) else {
        return Err(LevelFault::NoLevel);
    };
    match numbers.to_vec(alloc) {
        Ok(numbers) => Ok(Listed::of(numbers)),
        Err(_) => Err(LevelFault::Memory),
    }
}

/// The levels, with that of one aspect moved out or in by steps.
///
/// Refusals, in this order: `NoAspect` exactly where the descriptor has none of this name; `BelowZero` exactly where
/// the level is less than the steps in; `AboveMax` exactly where level and steps out exceed the maximum; `Memory`.
/// Source: SOL 003 5.5.2.5 (ScaleVnfRequest).
pub fn stepped(
    alloc: Global,
    vnfd: &Vnfd,
    levels: &Levels,
    aspect: &Name,
    way: ScaleWay,
    steps: u32,
) -> Result<Levels, StepFault>
    requires valid { IsValid vnfd.now }
    requires levels { are_levels_of vnfd.now levels.now ≡ true }
    ensures moved { IfOk result (λ new. new ≡ at_aspect vnfd.now.aspects aspect.now (moved_by way steps) levels.now) }
    ensures no_aspect { (result ≡ Err StepFault.NoAspect) ↔ (aspect_at vnfd.now levels.now aspect.now ≡ None) }
    ensures below { (result ≡ Err StepFault.BelowZero) ↔ IsSomeAnd (aspect_at vnfd.now levels.now aspect.now)
        (IsBelow way steps) }
    ensures above { (max : ℕ) → (result ≡ Err (StepFault.AboveMax max))
        ↔ IsSomeAnd (aspect_at vnfd.now levels.now aspect.now) (IsAbove way steps max) }
{
    let aspects = vnfd.aspects.as_slice();
    let Some((maximum, level)) = lcm_model::aspect_of(aspects, levels.as_slice(), aspect) else {
        return Err(StepFault::NoAspect);
    };
    match way {
        ScaleWay::In => {
            if level < steps {
                return Err(StepFault::BelowZero);
            }
        }
        ScaleWay::Out => {
            if level > maximum || steps > maximum - level {
                return Err(StepFault::AboveMax(maximum));
            }
        }
    }
    match lcm_model::stepped_levels(alloc, aspects, levels.as_slice(), aspect, way, steps) {
        Ok(moved) => Ok(Listed::of(moved)),
        Err(_) => Err(StepFault::Memory),
    }
}

/// The levels that an operation aims at, beside what stands: those of a name for INSTANTIATE and SCALE_TO_LEVEL, or the
/// present ones with some replaced; the present ones moved by steps for SCALE; else the present ones.
///
/// Refusals, of SCALE alone and in this order: `NoAspect`, `BelowZero` and `AboveMax`, each exactly where the
/// descriptor and the levels say so; `Memory`.
/// Source: SOL 003 5.4.4 to 5.4.10 (the tasks of an individual VNF instance).
pub fn target(alloc: Global, vnfd: &Vnfd, holding: &Holding, ask: &Ask) -> Result<Levels, StepFault>
    requires valid { IsValid vnfd.now }
    requires levels { are_levels_of vnfd.now holding.now.levels ≡ true }
    ensures target { IfOk result (λ levels. levels ≡ target vnfd.now holding.now.levels ask.now) }
    ensures no_aspect { (result ≡ Err StepFault.NoAspect) ↔ LacksAspect vnfd.now holding.now.levels ask.now }
    ensures below { (result ≡ Err StepFault.BelowZero) ↔ LeadsBelow vnfd.now holding.now.levels ask.now }
    ensures above { (max : ℕ) → (result ≡ Err (StepFault.AboveMax max))
        ↔ LeadsAbove vnfd.now holding.now.levels max ask.now }
{
    match ask {
        Ask::Scale { way, aspect, steps } => {
            stepped(alloc, vnfd, &holding.levels, aspect, *way, *steps)
        }
        Ask::Instantiate { .. } => unmoved(alloc, vnfd, holding, ask),
        Ask::ScaleToLevel(_) => unmoved(alloc, vnfd, holding, ask),
        Ask::Heal { .. } => unmoved(alloc, vnfd, holding, ask),
        Ask::Operate { .. } => unmoved(alloc, vnfd, holding, ask),
        Ask::Terminate { .. } => unmoved(alloc, vnfd, holding, ask),
    }
}

/// The levels that an ask aims at that moves none by steps.
fn unmoved(alloc: Global, vnfd: &Vnfd, holding: &Holding, ask: &Ask) -> Result<Levels, StepFault>
    requires valid { IsValid vnfd.now }
    requires levels { are_levels_of vnfd.now holding.now.levels ≡ true }
    ensures target { IfOk result (λ levels. levels ≡ target vnfd.now holding.now.levels ask.now) }
    ensures memory { IfErr result (λ fault. fault ≡ StepFault.Memory) }
{
    match target_in(alloc, vnfd, holding.levels.as_slice(), ask) {
        Ok(levels) => Ok(Listed::of(levels)),
        Err(_) => Err(StepFault::Memory),
    }
}
