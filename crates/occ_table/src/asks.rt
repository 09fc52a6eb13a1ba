//! What was asked for, in as many bytes as its names have.

ghost use Rattle.std.specs.Prelude.{◌≡◌, IfOk};
ghost use Rattle.lcm_events.specs.declared.asks.Aim.{Aim};
ghost use Rattle.lcm_events.specs.declared.asks.Ask.TheVariants.{Heal, Instantiate};
ghost use Rattle.lcm_model.specs.Operations.{kind_of};
ghost use Rattle.lcm_model.specs.Refusals.{is_terminate};
ghost use Rattle.occ_table.specs.PackedAsks.{aimed_at, asked_for};

use crate::names::{PackedName, name_where, packed_where};
use lcm_events::{Aim, Ask, AspectLevel, Listed, OpKind, ScaleWay, StopType, Vnfc};
use std::alloc::{AllocError, Global};
use std::marker::Model;
use vnfm_base::{Line, Name};

/// A level of an aspect.
///
/// A contract sees an `AspectLevel`.
#[derive(Drop)]
pub struct PackedLevel {
    aspect: PackedName,
    level: u32,
}

impl Model for PackedLevel {
    ghost use Rattle.lcm_events.specs.declared.asks.AspectLevel.{AspectLevel};

    ghost Value = { AspectLevel };

    ghost view = { λ p. record { aspect = p.aspect; level = p.level } };
}

impl PackedLevel {
    /// A copy of a level of an aspect.
    fn of(alloc: Global, named: &AspectLevel) -> Result<Self, AllocError>
        ensures { IfOk result (λ p. p ≡ named.now) }
    {
        let aspect = PackedName::of(alloc, &named.aspect)?;
        Ok(PackedLevel {
            aspect,
            level: named.level,
        })
    }

    /// The level of the aspect.
    fn unpack(&self) -> AspectLevel
        ensures { result ≡ self.now }
    {
        AspectLevel {
            aspect: self.aspect.name(),
            level: self.level,
        }
    }
}

/// What SCALE_TO_LEVEL aims at.
#[derive(Drop)]
pub enum PackedAim {
    /// The instantiation level of this name.
    Level(PackedName),
    /// These levels; the other aspects keep theirs.
    Aspects(Listed<PackedLevel>),
}

/// What an operation is asked to do, by its kind.
#[derive(Drop)]
pub enum PackedParts {
    /// INSTANTIATE.
    Instantiate {
        /// The flavour.
        flavour: PackedName,
        /// The instantiation level; the default where there is none.
        level: Option<PackedName>,
    },
    /// SCALE.
    Scale {
        /// Out or in.
        way: ScaleWay,
        /// The aspect.
        aspect: PackedName,
        /// How many steps.
        steps: u32,
    },
    /// SCALE_TO_LEVEL.
    ScaleToLevel(PackedAim),
    /// HEAL.
    Heal {
        /// Why.
        cause: Option<Line>,
        /// Which machines.
        named: Listed<Vnfc>,
    },
    /// OPERATE.
    Operate {
        /// Start, not stop.
        started: bool,
        /// How to stop.
        stop: Option<StopType>,
    },
    /// TERMINATE.
    Terminate {
        /// How.
        mode: StopType,
        /// Seconds to wait, which nothing measures.
        timeout: Option<u32>,
    },
}

/// What an operation is asked to do.
///
/// A contract sees an `Ask`.
///
/// Source: SOL 003 5.5.2.4 to 5.5.2.10 (InstantiateVnfRequest to OperateVnfRequest).
#[derive(Drop)]
pub struct PackedAsk {
    parts: PackedParts,
}

impl Model for PackedAsk {
    ghost use Rattle.lcm_events.specs.declared.asks.Ask.{Ask};
    ghost use Rattle.occ_table.specs.PackedAsks.{asked_for};

    ghost Value = { Ask };

    ghost view = { λ a. asked_for a.parts };
}

/// A copy of a line, where there is one.
pub fn copied_line(line: &Option<Line>) -> Result<Option<Line>, AllocError>
    ensures { IfOk result (λ l. l ≡ line.now) }
{
    match line {
        Some(text) => Ok(Some(text.clone()?)),
        None => Ok(None),
    }
}

/// Copies of levels of aspects.
fn packed_levels(alloc: Global, named: &[AspectLevel]) -> Result<Listed<PackedLevel>, AllocError>
    ensures { IfOk result (λ levels. levels ≡ named.now) }
{
    let mut levels = Vec::with_capacity(alloc, named.len())?;
    for level in named.iter() {
        levels.push(PackedLevel::of(alloc, level)?)?;
    }
    Ok(Listed::of(levels))
}

/// The levels of the aspects, in place.
fn unpacked_levels(alloc: Global, packed: &[PackedLevel]) -> Result<Listed<AspectLevel>, AllocError>
    ensures { IfOk result (λ levels. levels ≡ packed.now) }
{
    let mut levels = Vec::with_capacity(alloc, packed.len())?;
    for level in packed.iter() {
        levels.push(level.unpack())?;
    }
    Ok(Listed::of(levels))
}

/// A copy of what SCALE_TO_LEVEL aims at.
fn packed_aim(alloc: Global, aim: &Aim) -> Result<PackedAim, AllocError>
    ensures { IfOk result (λ a. aimed_at a ≡ aim.now) }
{
    match aim {
        Aim::Level(name) => Ok(PackedAim::Level(PackedName::of(alloc, name)?)),
        Aim::Aspects(named) => Ok(PackedAim::Aspects(packed_levels(alloc, named.as_slice())?)),
    }
}

/// What SCALE_TO_LEVEL aims at, with its names in place.
fn unpacked_aim(alloc: Global, aim: &PackedAim) -> Result<Aim, AllocError>
    ensures { IfOk result (λ a. a ≡ aimed_at aim.now) }
{
    match aim {
        PackedAim::Level(name) => Ok(Aim::Level(name.name())),
        PackedAim::Aspects(packed) => Ok(Aim::Aspects(unpacked_levels(alloc, packed.as_slice())?)),
    }
}

/// A copy of an INSTANTIATE.
fn packed_instantiate(
    alloc: Global,
    flavour: &Name,
    level: &Option<Name>,
) -> Result<PackedParts, AllocError>
    ensures { IfOk result (λ p. asked_for p ≡ Instantiate flavour.now level.now) }
{
    let flavour = PackedName::of(alloc, flavour)?;
    let level = packed_where(alloc, level)?;
    Ok(PackedParts::Instantiate { flavour, level })
}

/// A copy of a HEAL.
fn packed_heal(
    alloc: Global,
    cause: &Option<Line>,
    named: &Listed<Vnfc>,
) -> Result<PackedParts, AllocError>
    ensures { IfOk result (λ p. asked_for p ≡ Heal cause.now named.now) }
{
    let cause = copied_line(cause)?;
    let named = named.as_slice().to_vec(alloc)?;
    Ok(PackedParts::Heal {
        cause,
        named: Listed::of(named),
    })
}

/// A HEAL, in memory of its own.
fn unpacked_heal(
    alloc: Global,
    cause: &Option<Line>,
    named: &Listed<Vnfc>,
) -> Result<Ask, AllocError>
    ensures { IfOk result (λ a. a ≡ Heal cause.now named.now) }
{
    let cause = copied_line(cause)?;
    let named = named.as_slice().to_vec(alloc)?;
    Ok(Ask::Heal {
        cause,
        named: Listed::of(named),
    })
}

/// A copy of what an operation is asked to do.
fn packed_parts(alloc: Global, ask: &Ask) -> Result<PackedParts, AllocError>
    ensures { IfOk result (λ p. asked_for p ≡ ask.now) }
{
    match ask {
        Ask::Instantiate { flavour, level } => packed_instantiate(alloc, flavour, level),
        Ask::Scale { way, aspect, steps } => Ok(PackedParts::Scale {
            way: *way,
            aspect: PackedName::of(alloc, aspect)?,
            steps: *steps,
        }),
        Ask::ScaleToLevel(aim) => Ok(PackedParts::ScaleToLevel(packed_aim(alloc, aim)?)),
        Ask::Heal { cause, named } => packed_heal(alloc, cause, named),
        Ask::Operate { started, stop } => Ok(PackedParts::Operate {
            started: *started,
            stop: *stop,
        }),
        Ask::Terminate { mode, timeout } => Ok(PackedParts::Terminate {
            mode: *mode,
            timeout: *timeout,
        }),
    }
}

/// What an operation is asked to do, with its names in place.
fn unpacked_parts(alloc: Global, parts: &PackedParts) -> Result<Ask, AllocError>
    ensures { IfOk result (λ a. a ≡ asked_for parts.now) }
{
    match parts {
        PackedParts::Instantiate { flavour, level } => Ok(Ask::Instantiate {
            flavour: flavour.name(),
            level: name_where(level),
        }),
        PackedParts::Scale { way, aspect, steps } => Ok(Ask::Scale {
            way: *way,
            aspect: aspect.name(),
            steps: *steps,
        }),
        PackedParts::ScaleToLevel(aim) => Ok(Ask::ScaleToLevel(unpacked_aim(alloc, aim)?)),
        PackedParts::Heal { cause, named } => unpacked_heal(alloc, cause, named),
        PackedParts::Operate { started, stop } => Ok(Ask::Operate {
            started: *started,
            stop: *stop,
        }),
        PackedParts::Terminate { mode, timeout } => Ok(Ask::Terminate {
            mode: *mode,
            timeout: *timeout,
        }),
    }
}

/// The kind of an operation.
fn kind_of(parts: &PackedParts) -> OpKind
    ensures { result ≡ kind_of (asked_for parts.now) }
{
    match parts {
        PackedParts::Instantiate { .. } => OpKind::Instantiate,
        PackedParts::Scale { .. } => OpKind::Scale,
        PackedParts::ScaleToLevel(_) => OpKind::ScaleToLevel,
        PackedParts::Heal { .. } => OpKind::Heal,
        PackedParts::Operate { .. } => OpKind::Operate,
        PackedParts::Terminate { .. } => OpKind::Terminate,
    }
}

impl PackedAsk {
    /// A copy of what an operation is asked to do.
    pub fn of(alloc: Global, ask: &Ask) -> Result<Self, AllocError>
        ensures { IfOk result (λ a. a ≡ ask.now) }
    {
        let parts = packed_parts(alloc, ask)?;
        Ok(PackedAsk { parts })
    }

    /// What the operation is asked to do, with its names in place.
    pub fn unpack(&self, alloc: Global) -> Result<Ask, AllocError>
        ensures { IfOk result (λ a. a ≡ self.now) }
    {
        unpacked_parts(alloc, &self.parts)
    }

    /// The same, in memory of its own.
    pub fn copy(&self, alloc: Global) -> Result<Self, AllocError>
        ensures { IfOk result (λ a. a ≡ self.now) }
    {
        let ask = self.unpack(alloc)?;
        PackedAsk::of(alloc, &ask)
    }

    /// The kind of the operation.
    ///
    /// Source: SOL 003 5.5.2.13 (VnfLcmOpOcc).
    pub fn kind(&self) -> OpKind
        ensures { result ≡ kind_of self.now }
    {
        kind_of(&self.parts)
    }

    /// Whether it is to take all away.
    pub fn is_terminate(&self) -> bool
        ensures { result ≡ is_terminate self.now }
    {
        matches!(self.parts, PackedParts::Terminate { .. })
    }
}
