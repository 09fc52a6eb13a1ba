//! The scaling aspects, and why they are refused.
ghost use Rattle.std.specs.Prelude.{◌≡◌, IfOk, codes, is_some, map, option_map};
ghost use Rattle.std.specs.List.{flat_map, list_all};
ghost use Rattle.serde_json.specs.Find.{as_object, as_str};
ghost use Rattle.vnfd_document.specs.Members.{needed};
ghost use Rattle.serde_json.specs.View.{items_view, view};
ghost use Rattle.vnfd_document.specs.Checks.{Refuses, fault_of, first_failing};
ghost use Rattle.vnfd_document.specs.Json.{items_in};
ghost use Rattle.vnfd_document.specs.Places.{property as the_property};
ghost use Rattle.vnfd_document.specs.Seen.{seen};
ghost use Rattle.vnfd_policies.specs.Aspects.{are_steps, aspects as the_aspects, aspects_refusal, form_refusal};
ghost use Rattle.vnfd_policies.specs.Aspects.{maximum as the_maximum, maximum_refusal, step_list, steps_refusal};
ghost use Rattle.vnfd_policies.specs.Policies.{members_at};
ghost use Rattle.vnfd_policies.specs.ByType.{HaveAspects};

use crate::bounds::{ASPECTS, MAXIMUM};
use crate::by_type::Policies;
use crate::words::{property, refuse_more};
use serde_json::Value;
use std::alloc::{AllocError, Global};
use vnfd_document::{Check, Entry, VnfdFault, first_of, label, members_in, whole_in};

/// The aspects of all policies that have some, in the order of the policies and in byte order of their names.
pub fn aspects_in<'a>(alloc: Global, policies: &Policies<'a>) -> Result<Vec<Entry<'a>>, AllocError>
    requires aspects { HaveAspects policies.now }
    ensures { IfOk result (λ found. map seen found.items ≡ the_aspects (map seen policies.now.all.items)) }
{
    property_members(alloc, policies.with_aspects.as_slice(), "aspects")
}

/// The members of this property of the policies, in the order of the policies.
fn property_members<'a>(
    alloc: Global,
    policies: &[Entry<'a>],
    name: &str,
) -> Result<Vec<Entry<'a>>, AllocError>
    ensures { IfOk result (λ found. map seen found.items ≡ flat_map (λ p. members_at (the_property name.now p.1))
        (map seen policies.now)) }
{
    let mut found = Vec::new(alloc);
    for policy in policies {
        let members = members_in(alloc, property(policy.value, name))?;
        found.extend_from_slice(members.as_slice())?;
    }
    Ok(found)
}

/// An aspect's greatest level, or 0 where it has none.
pub fn maximum(aspect: &Value) -> u32
    ensures { result ≡ the_maximum (view aspect.now) }
{
    match aspect.get("max_scale_level") {
        Some(value) => whole_in(0, MAXIMUM, value).unwrap_or(0),
        None => 0,
    }
}

/// The first thing that is wrong with the aspects: the form of the policy, their number, the greatest level of each,
/// the steps of each.
///
/// Source: SOL 001, tosca.policies.nfv.ScalingAspects.
pub fn refuse_aspects(alloc: Global, policies: &Policies) -> Result<(), VnfdFault>
    requires aspects { HaveAspects policies.now }
    ensures { Refuses result (aspects_refusal (map seen policies.now.all.items)) }
{
    refuse_form(policies.with_aspects.as_slice())?;
    let aspects = aspects_in(alloc, policies)?;
    refuse_more(ASPECTS, "aspects", aspects.as_slice())?;
    refuse_maxima(aspects.as_slice())?;
    refuse_steps(aspects.as_slice())
}

/// The greatest level of each aspect is a whole number to 1,000.
fn refuse_maxima(aspects: &[Entry]) -> Result<(), VnfdFault>
    ensures { fault_of result ≡ first_failing maximum_refusal (map seen aspects.now) }
{
    first_of(aspects, &MaximumCheck)
}

/// The steps of each aspect are named by one text, or by one each.
fn refuse_steps(aspects: &[Entry]) -> Result<(), VnfdFault>
    ensures { fault_of result ≡ first_failing steps_refusal (map seen aspects.now) }
{
    first_of(aspects, &StepsCheck)
}

/// There is at most one policy with aspects, and its aspects are an object.
fn refuse_form(with_aspects: &[Entry]) -> Result<(), VnfdFault>
    ensures { fault_of result ≡ form_refusal (map seen with_aspects.now) }
{
    match with_aspects {
        [] => Ok(()),
        [policy] => refuse_no_object(policy.value),
        _ => Err(VnfdFault::Wrong(label("aspects"))),
    }
}

/// The aspects of a policy are there, and an object.
fn refuse_no_object(policy: &Value) -> Result<(), VnfdFault>
    ensures { fault_of result ≡ needed (codes "aspects") as_object (the_property (codes "aspects") (view policy.now)) }
{
    let Some(aspects) = property(policy, "aspects") else {
        return Err(VnfdFault::Lacks(label("aspects")));
    };
    if aspects.is_object() {
        Ok(())
    } else {
        Err(VnfdFault::Wrong(label("aspects")))
    }
}

/// The greatest level of an aspect is a whole number to 1,000.
struct MaximumCheck;

impl Check for MaximumCheck {
    ghost use Rattle.vnfd_policies.specs.Aspects.{maximum_refusal};

    ghost says = { λ check aspect. maximum_refusal aspect };

    fn check(&self, aspect: &Entry) -> Result<(), VnfdFault> {
        let Some(value) = aspect.value.get("max_scale_level") else {
            return Err(VnfdFault::Lacks(label("max_scale_level")));
        };
        if whole_in(0, MAXIMUM, value).is_none() {
            return Err(VnfdFault::Wrong(label("max_scale_level")));
        }
        Ok(())
    }
}

/// The steps of an aspect are named by one text, or by one each; they are passed over where its greatest level is 0.
struct StepsCheck;

impl Check for StepsCheck {
    ghost use Rattle.vnfd_policies.specs.Aspects.{steps_refusal};

    ghost says = { λ check aspect. steps_refusal aspect };

    fn check(&self, aspect: &Entry) -> Result<(), VnfdFault> {
        let most = maximum(aspect.value);
        if most == 0 {
            return Ok(());
        }
        let Some(value) = aspect.value.get("step_deltas") else {
            return Err(VnfdFault::Lacks(label("step_deltas")));
        };
        if is_step_list(most as usize, value) {
            Ok(())
        } else {
            Err(VnfdFault::Wrong(label("step_deltas")))
        }
    }
}

/// Whether the value is a list that names so many steps.
fn is_step_list(most: usize, value: &Value) -> bool
    ensures { result ≡ is_some (step_list most (view value.now)) }
{
    match value.as_array() {
        Some(names) => are_step_names(most, names.as_slice()),
        None => false,
    }
}

/// Whether these are the names of so many steps.
#[tactic(auto, using(crate::proofs::ListLaws::count_items))]
fn are_step_names(most: usize, names: &[Value]) -> bool
    ensures { result ≡ are_steps most (items_in (items_view names.now)) }
{
    are_texts(names) && (names.len() == 1 || names.len() == most)
}

/// Whether each of these values is a text.
fn are_texts(values: &[Value]) -> bool
    ensures { result ≡ list_all (λ d. is_some (as_str d)) (items_in (items_view values.now)) }
{
    for value in values {
        if value.as_str().is_none() {
            return false;
        }
    }
    true
}
