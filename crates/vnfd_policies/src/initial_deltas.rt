//! How many instances of a VDU there are at first, and why that is refused.
ghost use Rattle.std.specs.Prelude.{◌≡◌, ◌++◌, IfOk, codes, map, option_and_then, option_map, unwrap_or, []};
ghost use Rattle.std.specs.List.{list_any};
ghost use Rattle.std.specs.Str.{bytes_eq};
ghost use Rattle.serde_json.specs.Find.{get};
ghost use Rattle.serde_json.specs.View.{view};
ghost use Rattle.vnfd_document.specs.Checks.{Refuses, fault_of, first_failing};
ghost use Rattle.vnfd_document.specs.Members.{needed};
ghost use Rattle.vnfd_document.specs.Places.{of_type, property as the_property, targets as the_targets};
ghost use Rattle.vnfd_document.specs.Seen.{seen};
ghost use Rattle.vnfd_policies.specs.Levels.{default_name as the_default_name};
ghost use Rattle.vnfd_policies.specs.Policies.{vdu_levels};
ghost use Rattle.vnfd_policies.specs.Initial.{again_refusal, delta_of as the_delta_of, first_given as the_first_given};
ghost use Rattle.vnfd_policies.specs.Initial.{given_at as the_given_at, initial_of, initials_refusal};
ghost use Rattle.vnfd_policies.specs.Initial.{initials_refusal_after, instances as the_instances};
ghost use Rattle.vnfd_policies.specs.Initial.{is_aimed_at as one_aims_at, missing_refusal};
ghost use Rattle.vnfd_policies.specs.ByType.{HaveDeltas, HaveInitials, HaveLevels, HaveNumbers};

use crate::bounds::INSTANCES;
use crate::by_type::Policies;
use crate::instantiation::default_name;
use crate::words::{aims_at, known_targets, property};
use serde_json::Value;
use std::alloc::{AllocError, Global};
use vnfd_document::{Entry, VnfdFault, at, is_same_text, label, whole_in};

/// The instances in a value.
fn instances(value: &Value) -> Option<u32>
    ensures { result ≡ the_instances (view value.now) }
{
    whole_in(0, INSTANCES, value.get("number_of_instances")?)
}

/// The first thing that is wrong with the initial deltas: of each policy in turn its targets, a VDU that is a target
/// for the second time, its number; then a VDU with deltas of an aspect and no initial delta.
///
/// Source: SOL 001, tosca.policies.nfv.VduInitialDelta.
pub fn refuse_initials<'a>(
    alloc: Global,
    vdus: &[Entry<'a>],
    policies: &Policies<'a>,
) -> Result<(), VnfdFault>
    requires deltas { HaveDeltas policies.now }
    requires initials { HaveInitials policies.now }
    ensures { Refuses result (initials_refusal (map seen vdus.now) (map seen policies.now.all.items)) }
{
    let initials = policies.with_initials.as_slice();
    refuse_each(alloc, vdus, initials)?;
    refuse_missing(policies.with_deltas.as_slice(), initials, vdus)
}

fn refuse_each<'a>(
    alloc: Global,
    vdus: &[Entry<'a>],
    policies: &[Entry<'a>],
) -> Result<(), VnfdFault>
    ensures { Refuses result (initials_refusal_after (map seen vdus.now) [] (map seen policies.now)) }
{
    let mut aimed_at: Vec<&str> = Vec::new(alloc);
    for policy in policies {
        let names = known_targets(alloc, vdus, policy.value)?;
        add_targets(&mut aimed_at, names.as_slice())?;
        refuse_number(policy.value)?;
    }
    Ok(())
}

/// Adds the targets of a policy to those of the policies before it. None stands among those before it.
fn add_targets<'a>(aimed_at: &mut Vec<&'a str>, names: &[&'a str]) -> Result<(), VnfdFault>
    ensures refuses { Refuses result (again_refusal (map (λ name. name.now) aimed_at.old.items)
        (map (λ name. name.now) names.now)) }
    ensures added { IfOk result (λ done. aimed_at.new.items ≡ aimed_at.old.items ++ names.now) }
{
    for name in names {
        if is_among(aimed_at.as_slice(), *name) {
            return Err(VnfdFault::Wrong(label("initial_delta")));
        }
        aimed_at.push(*name)?;
    }
    Ok(())
}

/// Whether a name is one of these.
fn is_among(names: &[&str], wanted: &str) -> bool
    ensures { result ≡ list_any (bytes_eq wanted.now) (map (λ name. name.now) names.now) }
{
    for name in names {
        if is_same_text(wanted, *name) {
            return true;
        }
    }
    false
}

/// The number of a policy is there, and a whole number to 65,535.
fn refuse_number(policy: &Value) -> Result<(), VnfdFault>
    ensures { fault_of result ≡ needed (codes "initial_delta") the_instances
        (the_property (codes "initial_delta") (view policy.now)) }
{
    let Some(delta) = property(policy, "initial_delta") else {
        return Err(VnfdFault::Lacks(label("initial_delta")));
    };
    if instances(delta).is_none() {
        return Err(VnfdFault::Wrong(label("initial_delta")));
    }
    Ok(())
}

/// Each VDU with deltas of an aspect has an initial delta.
fn refuse_missing(
    with_deltas: &[Entry],
    initials: &[Entry],
    vdus: &[Entry],
) -> Result<(), VnfdFault>
    ensures { fault_of result ≡ first_failing (missing_refusal (map seen with_deltas.now) (map seen initials.now))
        (map seen vdus.now) }
{
    for vdu in vdus {
        if is_aimed_at(with_deltas, vdu.name) && !is_aimed_at(initials, vdu.name) {
            return Err(VnfdFault::Lacks(label("initial_delta")));
        }
    }
    Ok(())
}

/// Whether one of the policies aims at the VDU.
fn is_aimed_at(policies: &[Entry], vdu: &str) -> bool
    ensures { result ≡ one_aims_at (map seen policies.now) vdu.now }
{
    for policy in policies {
        if aims_at(vdu, policy.value) {
            return true;
        }
    }
    false
}

/// The instances of the VDU of this name at first: its initial delta, else what it is given at the default level, else
/// 1.
///
/// Source: SOL 001, tosca.policies.nfv.VduInitialDelta and tosca.policies.nfv.VduInstantiationLevels; defaults: own
/// rule.
#[tactic(auto, unfolding(crate::specs::Initial::initial_of))]
pub fn initial(alloc: Global, policies: &Policies, vdu: &str) -> Result<u32, AllocError>
    requires initials { HaveInitials policies.now }
    requires levels { HaveLevels policies.now }
    requires numbers { HaveNumbers policies.now }
    ensures { IfOk result (λ n. n ≡ initial_of (map seen policies.now.all.items) vdu.now) }
{
    if let Some(delta) = delta_of(vdu, policies.with_initials.as_slice()) {
        return Ok(delta);
    }
    let given = given_first(alloc, policies, vdu)?;
    Ok(given.unwrap_or(1))
}

/// What the VDU is given at the default level by the first policy that gives it a number there.
fn given_first(alloc: Global, policies: &Policies, vdu: &str) -> Result<Option<u32>, AllocError>
    requires levels { HaveLevels policies.now }
    requires numbers { HaveNumbers policies.now }
    ensures { IfOk result (λ n. n ≡ the_first_given (the_default_name (map seen policies.now.all.items)) vdu.now
        (of_type vdu_levels (map seen policies.now.all.items))) }
{
    let level = default_name(alloc, policies)?;
    Ok(first_given(level, vdu, policies.with_numbers.as_slice()))
}

/// The initial delta of the policy that aims at the VDU.
fn delta_of(vdu: &str, policies: &[Entry]) -> Option<u32>
    ensures { result ≡ the_delta_of vdu.now (map seen policies.now) }
{
    for policy in policies {
        if aims_at(vdu, policy.value) {
            return Some(number(policy.value));
        }
    }
    None
}

/// The number of a policy, or 0 where it has none.
fn number(policy: &Value) -> u32
    ensures { result ≡ unwrap_or (option_and_then the_instances
        (the_property (codes "initial_delta") (view policy.now))) 0 }
{
    match property(policy, "initial_delta") {
        Some(delta) => instances(delta).unwrap_or(0),
        None => 0,
    }
}

fn first_given(level: &str, vdu: &str, policies: &[Entry]) -> Option<u32>
    ensures { result ≡ the_first_given level.now vdu.now (map seen policies.now) }
{
    for policy in policies {
        let given = given_at(level, vdu, policy.value);
        if given.is_some() {
            return given;
        }
    }
    None
}

/// The instances that a policy gives the VDU at the level of this name.
fn given_at(level: &str, vdu: &str, policy: &Value) -> Option<u32>
    ensures { result ≡ the_given_at level.now vdu.now (view policy.now) }
{
    if !aims_at(vdu, policy) {
        return None;
    }
    instances(at(policy, &["properties", "levels", level])?)
}
