//! Why an operation is refused by its content, by its instance's state and by its steps.

ghost use Rattle.std.specs.Prelude.{◌≡◌, ◌==◌, ◌&&◌, find, length, not, option_and_then, option_copied, true, zip, ℕ};
ghost use Rattle.std.specs.List.{list_any};
ghost use Rattle.lcm_events.specs.Same.{same_name};
ghost use Rattle.lcm_model.specs.Descriptors.{IsHoldingOf, IsValid, are_levels_of};
ghost use Rattle.lcm_model.specs.Instances.{inventory_of};
ghost use Rattle.lcm_model.specs.Levels.{is_aspect};
ghost use Rattle.lcm_model.specs.Refusals.{aim_refusal, aspect_named, content_refusal, has_aspect};
ghost use Rattle.lcm_model.specs.Refusals.{instantiation_refusal, is_above, is_known_level, names_twice, needs_started};
ghost use Rattle.lcm_model.specs.Refusals.{needs_step, state_refusal, step_refusal};
ghost use Rattle.lcm_model.specs.Vnfcs.{is_in_step};
ghost use Rattle.lcm_plans.specs.Cases.{scale_refusal, situation_over};

use lcm_events::{Aim, Ask, Aspect, AspectLevel, Holding, ScaleWay, Vnfd};
use lcm_model::{Refusal, aspect_of, level_named};
use vnfm_base::Name;

/// Whether the level is the descriptor's, or none is named.
fn is_known(vnfd: &Vnfd, level: &Option<Name>) -> bool
    ensures { result ≡ is_known_level vnfd.now level.now }
{
    match level {
        Some(name) => level_named(vnfd, name).is_some(),
        None => true,
    }
}

/// The aspect of this name.
fn aspect_in<'a>(vnfd: &'a Vnfd, name: &Name) -> Option<&'a Aspect>
    ensures { option_copied result ≡ aspect_named vnfd.now name.now }
{
    for aspect in vnfd.aspects.as_slice() {
        if aspect.name == *name {
            return Some(aspect);
        }
    }
    None
}

/// Whether one of the named aspects isn't the descriptor's.
fn names_unknown(vnfd: &Vnfd, named: &[AspectLevel]) -> bool
    ensures { result ≡ list_any (λ x. not (has_aspect vnfd.now x.aspect)) named.now }
{
    for x in named {
        if aspect_in(vnfd, &x.aspect).is_none() {
            return true;
        }
    }
    false
}

/// Whether an aspect is among the named ones.
fn is_aspect_among(named: &[AspectLevel], name: &Name) -> bool
    ensures { result ≡ list_any (λ y. same_name y.aspect name.now) named.now }
{
    for x in named {
        if x.aspect == *name {
            return true;
        }
    }
    false
}

/// Whether an aspect is named twice.
fn is_named_twice(named: &[AspectLevel]) -> bool
    ensures { result ≡ names_twice named.now }
{
    for (at, x) in named.iter().enumerate() {
        if is_aspect_among(&named[at + 1..], &x.aspect) {
            return true;
        }
    }
    false
}

/// Whether a level is above its aspect's maximum.
fn is_above_in(vnfd: &Vnfd, x: &AspectLevel) -> bool
    ensures { result ≡ is_above vnfd.now x.now }
{
    match aspect_in(vnfd, &x.aspect) {
        Some(aspect) => aspect.maximum < x.level,
        None => false,
    }
}

/// Whether one of the named levels is above its aspect's maximum.
fn names_above(vnfd: &Vnfd, named: &[AspectLevel]) -> bool
    ensures { result ≡ list_any (is_above vnfd.now) named.now }
{
    for x in named {
        if is_above_in(vnfd, x) {
            return true;
        }
    }
    false
}

/// Why the aim of SCALE_TO_LEVEL is refused by itself.
fn aim_refusal_in(vnfd: &Vnfd, aim: &Aim) -> Option<Refusal>
    ensures { result ≡ aim_refusal vnfd.now aim.now }
{
    match aim {
        Aim::Level(name) => {
            if level_named(vnfd, name).is_some() {
                None
            } else {
                Some(Refusal::UnknownLevel)
            }
        }
        Aim::Aspects(named) => aspects_refusal_in(vnfd, named.as_slice()),
    }
}

/// Why the named aspects of SCALE_TO_LEVEL are refused by themselves.
fn aspects_refusal_in(vnfd: &Vnfd, named: &[AspectLevel]) -> Option<Refusal>
    ensures { result ≡ aim_refusal vnfd.now (Aim.Aspects named.now) }
{
    let unknown = names_unknown(vnfd, named);
    let twice = is_named_twice(named);
    let above = names_above(vnfd, named);
    if unknown {
        Some(Refusal::UnknownAspect)
    } else if twice {
        Some(Refusal::AspectTwice)
    } else if above {
        Some(Refusal::LevelAboveMaximum)
    } else {
        None
    }
}

/// Why an ask is refused against the descriptor or by itself.
///
/// Source: SOL 003 5.5.2.4 to 5.5.2.10 (the requests of the tasks).
pub fn content_refusal_in(vnfd: &Vnfd, ask: &Ask) -> Option<Refusal>
    ensures { result ≡ content_refusal vnfd.now ask.now }
{
    match ask {
        Ask::Instantiate { flavour, level } => {
            let known = is_known(vnfd, level);
            if *flavour != vnfd.flavour_id {
                Some(Refusal::UnknownFlavour)
            } else if !known {
                Some(Refusal::UnknownLevel)
            } else {
                None
            }
        }
        Ask::Scale { aspect, steps, .. } => {
            let known = aspect_in(vnfd, aspect).is_some();
            if !known {
                Some(Refusal::UnknownAspect)
            } else if *steps == 0 {
                Some(Refusal::NoSteps)
            } else {
                None
            }
        }
        Ask::ScaleToLevel(aim) => aim_refusal_in(vnfd, aim),
        _ => None,
    }
}

/// Whether the operation needs an instance in step.
fn needs_step_in(ask: &Ask) -> bool
    ensures { result ≡ needs_step ask.now }
{
    matches!(
        ask,
        Ask::Scale { .. } | Ask::ScaleToLevel(_) | Ask::Operate { .. }
    )
}

/// Whether the operation needs an instance that is STARTED.
fn needs_started_in(ask: &Ask) -> bool
    ensures { result ≡ needs_started ask.now }
{
    matches!(ask, Ask::Scale { .. } | Ask::ScaleToLevel(_))
}

/// Why the instantiation state refuses an ask.
fn instantiation_refusal_in(ask: &Ask, instantiated: bool) -> Option<Refusal>
    ensures { result ≡ instantiation_refusal ask.now instantiated }
{
    match ask {
        Ask::Instantiate { .. } => {
            if instantiated {
                Some(Refusal::Instantiated)
            } else {
                None
            }
        }
        _ => {
            if instantiated {
                None
            } else {
                Some(Refusal::NotInstantiated)
            }
        }
    }
}

/// Whether the operation needs an instance in step, and this one isn't.
fn is_out_of_step(vnfd: &Vnfd, holding: &Holding, ask: &Ask) -> bool
    requires valid { IsValid vnfd.now }
    requires held { IsHoldingOf vnfd.now holding.now }
    ensures { result ≡ (needs_step ask.now && not (is_in_step vnfd.now
        (inventory_of holding.now) holding.now.levels holding.now.started)) }
{
    needs_step_in(ask) && !change_planner::is_in_step(vnfd, holding)
}

/// Why an instance's state refuses an ask, over what stands of it; `busy` where an operation of it goes on.
///
/// Source: SOL 003 5.4.4 to 5.4.10 (the tasks of an individual VNF instance); "in step" is an own rule.
pub(crate) fn state_refusal_over(
    vnfd: &Vnfd,
    holding: &Holding,
    busy: bool,
    ask: &Ask,
) -> Option<Refusal>
    requires valid { IsValid vnfd.now }
    requires held { IsHoldingOf vnfd.now holding.now }
    ensures { result ≡ state_refusal vnfd.now (situation_over holding.now busy) ask.now }
{
    if let Some(wrong) = instantiation_refusal_in(ask, holding.instantiated) {
        return Some(wrong);
    }
    if busy {
        Some(Refusal::Ongoing)
    } else if is_out_of_step(vnfd, holding, ask) {
        Some(Refusal::OutOfStep)
    } else if needs_started_in(ask) && !holding.started {
        Some(Refusal::Stopped)
    } else {
        None
    }
}

/// Why steps in this way from a level are refused, where the aspect's maximum is this.
fn step_refusal_in(way: ScaleWay, steps: u32, maximum: u32, level: u32) -> Option<Refusal>
    ensures { (a : Aspect × ℕ) → a.0.maximum ≡ maximum → a.1 ≡ level → result ≡ step_refusal way steps a }
{
    match way {
        ScaleWay::In => {
            if level < steps {
                Some(Refusal::BelowZero)
            } else {
                None
            }
        }
        ScaleWay::Out => {
            if (maximum as u64) < level as u64 + steps as u64 {
                Some(Refusal::AboveMaximum)
            } else {
                None
            }
        }
    }
}

/// Why steps of the aspect of this name are refused.
fn steps_refusal_in(
    aspects: &[Aspect],
    present: &[u32],
    name: &Name,
    way: ScaleWay,
    steps: u32,
) -> Option<Refusal>
    requires { length present.now ≡ length aspects.now }
    ensures { result ≡ option_and_then (step_refusal way steps)
        (find (is_aspect name.now) (zip aspects.now present.now)) }
{
    match aspect_of(aspects, present, name) {
        Some((maximum, level)) => step_refusal_in(way, steps, maximum, level),
        None => None,
    }
}

/// Why the steps of SCALE are refused from these levels; no other ask has steps.
#[tactic(auto, using(lcm_model::proofs::LevelLaws::levels_length))]
pub(crate) fn scale_refusal_in(vnfd: &Vnfd, present: &[u32], ask: &Ask) -> Option<Refusal>
    requires { are_levels_of vnfd.now present.now ≡ true }
    ensures { result ≡ scale_refusal vnfd.now present.now ask.now }
{
    match ask {
        Ask::Scale { way, aspect, steps } => {
            steps_refusal_in(vnfd.aspects.as_slice(), present, aspect, *way, *steps)
        }
        _ => None,
    }
}
