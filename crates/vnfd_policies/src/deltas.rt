//! What each step of an aspect adds to a VDU, and why that is refused.
ghost use Rattle.std.specs.Prelude.{◌≡◌, ◌++◌, IfOk, IfSome, codes, find, is_some, map, option_map, option_and_then};
ghost use Rattle.std.specs.Prelude.{[], unwrap_or, if◌then◌else◌, Some, None};
ghost use Rattle.std.specs.List.{list_all, list_any};
ghost use Rattle.std.specs.Option.{option_map_or};
ghost use Rattle.serde_json.specs.Find.{as_str, get};
ghost use Rattle.serde_json.specs.View.{items_view, view};
ghost use Rattle.vnfd_document.specs.Checks.{Refuses, fault_of, first_failing};
ghost use Rattle.vnfd_document.specs.declared.fault.VnfdFault.TheVariants.{Wrong};
ghost use Rattle.vnfd_document.specs.Json.{items_in};
ghost use Rattle.vnfd_document.specs.Members.{needed};
ghost use Rattle.vnfd_document.specs.Places.{property as the_property, targets as the_targets};
ghost use Rattle.vnfd_document.specs.Seen.{seen};
ghost use Rattle.vnfd_policies.specs.Aspects.{steps as the_steps};
ghost use Rattle.vnfd_policies.specs.AspectsSeen.{aspect_seen};
ghost use Rattle.vnfd_policies.specs.Cells.{cell};
ghost use Rattle.vnfd_policies.specs.Deltas.{all_deltas_refusal, aspect_name as the_aspect_name, aspect_refusal};
ghost use Rattle.vnfd_policies.specs.Deltas.{cells as the_cells, deltas_for, deltas_refusal, is_cell_in};
ghost use Rattle.vnfd_policies.specs.Deltas.{policies_refusal_after, single_refusal, step_delta as the_step_delta};
ghost use Rattle.vnfd_policies.specs.Deltas.{steps_of as the_steps_of, text_refusal};
ghost use Rattle.vnfd_policies.specs.ByType.{HaveAspects, HaveDeltas};

use crate::aspect_steps::Steps;
use crate::bounds::INSTANCES;
use crate::by_type::Policies;
use crate::scaling::{aspects_in, maximum};
use crate::steps::{steps_named, steps_of_each};
use crate::words::{aims_at, known_targets, property, refuse_unknown};
use serde_json::Value;
use std::alloc::{AllocError, Global};
use vnfd_document::{Entry, VnfdFault, is_same_text, label, whole_in};

/// An aspect and a VDU, by name, that a policy gives deltas for.
#[derive(Clone, Copy)]
pub struct Cell<'a> {
    pub aspect: &'a str,
    pub vdu: &'a str,
}

/// The first thing that is wrong with the policies that give deltas: of each in turn its aspect, its targets, its
/// deltas, and whether a VDU has deltas of the aspect already.
///
/// Source: SOL 001, tosca.policies.nfv.VduScalingAspectDeltas.
pub fn refuse_deltas<'a>(
    alloc: Global,
    vdus: &[Entry<'a>],
    policies: &Policies<'a>,
) -> Result<(), VnfdFault>
    requires aspects { HaveAspects policies.now }
    requires deltas { HaveDeltas policies.now }
    ensures { Refuses result (all_deltas_refusal (map seen vdus.now) (map seen policies.now.all.items)) }
{
    let aspects = aspects_in(alloc, policies)?;
    let steps = steps_of_each(alloc, aspects.as_slice())?;
    refuse_each(
        alloc,
        vdus,
        aspects.as_slice(),
        steps.as_slice(),
        policies.with_deltas.as_slice(),
    )
}

fn refuse_each<'a>(
    alloc: Global,
    vdus: &[Entry<'a>],
    aspects: &[Entry<'a>],
    steps: &[Steps<'a>],
    policies: &[Entry<'a>],
) -> Result<(), VnfdFault>
    requires { map aspect_seen steps.now ≡ map seen aspects.now }
    ensures { Refuses result (policies_refusal_after (map seen vdus.now) (map seen aspects.now) []
        (map seen policies.now)) }
{
    let mut taken: Vec<Cell> = Vec::new(alloc);
    for policy in policies {
        refuse_policy(alloc, vdus, aspects, steps, policy.value)?;
        take_cells(alloc, vdus, policy.value, &mut taken)?;
    }
    Ok(())
}

/// Takes the aspects and VDUs that a policy gives deltas for. None of them is taken already.
fn take_cells<'a>(
    alloc: Global,
    vdus: &[Entry<'a>],
    policy: &'a Value,
    taken: &mut Vec<Cell<'a>>,
) -> Result<(), VnfdFault>
    ensures refuses { Refuses result (if list_any (is_cell_in (map cell taken.old.items))
        (the_cells (map seen vdus.now) (view policy.now)) then Some (Wrong (codes "deltas")) else None) }
    ensures taken { IfOk result (λ done. map cell taken.new.items
        ≡ map cell taken.old.items ++ the_cells (map seen vdus.now) (view policy.now)) }
{
    let cells = cells(alloc, vdus, policy)?;
    if is_any_taken(taken.as_slice(), cells.as_slice()) {
        return Err(VnfdFault::Wrong(label("deltas")));
    }
    taken.extend_from_slice(cells.as_slice())?;
    Ok(())
}

/// The first thing that is wrong with a policy by itself: its aspect, its targets, its deltas.
fn refuse_policy(
    alloc: Global,
    vdus: &[Entry],
    aspects: &[Entry],
    steps: &[Steps],
    policy: &Value,
) -> Result<(), VnfdFault>
    requires { map aspect_seen steps.now ≡ map seen aspects.now }
    ensures { Refuses result (single_refusal (map seen vdus.now) (map seen aspects.now) (view policy.now)) }
{
    refuse_aspect(aspects, policy)?;
    known_targets(alloc, vdus, policy)?;
    refuse_missing_deltas(steps, policy)
}

/// The aspect that a policy is for is there, and one of the aspects.
fn refuse_aspect(aspects: &[Entry], policy: &Value) -> Result<(), VnfdFault>
    ensures { fault_of result ≡ aspect_refusal (map seen aspects.now)
        (the_property (codes "aspect") (view policy.now)) }
{
    match property(policy, "aspect") {
        Some(value) => refuse_aspect_name(aspects, value),
        None => Err(VnfdFault::Lacks(label("aspect"))),
    }
}

fn refuse_aspect_name(aspects: &[Entry], value: &Value) -> Result<(), VnfdFault>
    ensures { fault_of result ≡ text_refusal (map seen aspects.now) (as_str (view value.now)) }
{
    match value.as_str() {
        Some(name) => refuse_unknown(aspects, name),
        None => Err(VnfdFault::Wrong(label("aspect"))),
    }
}

/// The name of the aspect that a policy is for, and the empty one where it gives none.
pub fn aspect_name(policy: &Value) -> &str
    ensures { result.now ≡ the_aspect_name (view policy.now) }
{
    match property(policy, "aspect") {
        Some(value) => value.as_str().unwrap_or(""),
        None => "",
    }
}

/// Where there is a step of the policy's aspect to look up, its deltas are there, with one for each step.
fn refuse_missing_deltas(steps: &[Steps], policy: &Value) -> Result<(), VnfdFault>
    ensures { fault_of result ≡ deltas_refusal (the_steps_of (map aspect_seen steps.now)
        (the_aspect_name (view policy.now))) (the_property (codes "deltas") (view policy.now)) }
{
    match steps_named(steps, aspect_name(policy)) {
        Some(steps) => refuse_deltas_of(steps.names.as_slice(), policy),
        None => Ok(()),
    }
}

/// The names of an aspect's steps, where its greatest level isn't 0 and they are a list.
pub fn steps(aspect: &Value) -> Option<&Vec<Value>>
    ensures { the_steps (view aspect.now) ≡ option_map_or (λ names. items_in (items_view names.now.items)) result [] }
{
    if maximum(aspect) == 0 {
        return None;
    }
    aspect.get("step_deltas")?.as_array()
}

#[tactic(auto, using(crate::proofs::StepLaws::count_seen))]
fn refuse_deltas_of(names: &[&Value], policy: &Value) -> Result<(), VnfdFault>
    ensures { fault_of result ≡ deltas_refusal (map (λ v. view v.now) names.now)
        (the_property (codes "deltas") (view policy.now)) }
{
    if names.is_empty() {
        return Ok(());
    }
    refuse_no_deltas(names, policy)
}

/// The deltas of a policy are there, with one for each of these steps.
fn refuse_no_deltas(names: &[&Value], policy: &Value) -> Result<(), VnfdFault>
    ensures { fault_of result ≡ needed (codes "deltas") (deltas_for (map (λ v. view v.now) names.now))
        (the_property (codes "deltas") (view policy.now)) }
{
    let Some(deltas) = property(policy, "deltas") else {
        return Err(VnfdFault::Lacks(label("deltas")));
    };
    if has_deltas(deltas, names) {
        Ok(())
    } else {
        Err(VnfdFault::Wrong(label("deltas")))
    }
}

/// Whether there is a delta for each of these steps.
fn has_deltas(deltas: &Value, names: &[&Value]) -> bool
    ensures { result ≡ list_all (λ s. is_some (the_step_delta (view deltas.now) s)) (map (λ v. view v.now) names.now) }
{
    for name in names {
        if step_delta(deltas, name).is_none() {
            return false;
        }
    }
    true
}

/// The instances that a step adds, by the deltas of a policy.
pub fn step_delta(deltas: &Value, step: &Value) -> Option<u32>
    ensures { result ≡ the_step_delta (view deltas.now) (view step.now) }
{
    let delta = deltas.get(step.as_str()?)?;
    whole_in(0, INSTANCES, delta.get("number_of_instances")?)
}

/// The aspects and VDUs that a policy gives deltas for.
fn cells<'a>(
    alloc: Global,
    vdus: &[Entry<'a>],
    policy: &'a Value,
) -> Result<Vec<Cell<'a>>, AllocError>
    ensures { IfOk result (λ found. map cell found.items ≡ the_cells (map seen vdus.now) (view policy.now)) }
{
    let aspect = aspect_name(policy);
    let mut found = Vec::new(alloc);
    for vdu in vdus {
        if aims_at(vdu.name, policy) {
            found.push(Cell {
                aspect,
                vdu: vdu.name,
            })?;
        }
    }
    Ok(found)
}

/// Whether one of the cells is among those that are taken.
fn is_any_taken(taken: &[Cell], cells: &[Cell]) -> bool
    ensures { result ≡ list_any (is_cell_in (map cell taken.now)) (map cell cells.now) }
{
    for cell in cells {
        if is_taken(taken, cell) {
            return true;
        }
    }
    false
}

fn is_taken(taken: &[Cell], wanted: &Cell) -> bool
    ensures { result ≡ is_cell_in (map cell taken.now) (cell wanted.now) }
{
    for other in taken {
        if is_same_text(other.aspect, wanted.aspect) && is_same_text(other.vdu, wanted.vdu) {
            return true;
        }
    }
    false
}
