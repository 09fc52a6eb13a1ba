//! The aspects of a descriptor, with a row of deltas for each VDU that has some.
ghost use Rattle.std.specs.Prelude.{◌≡◌, ◌≤◌, IfOk, codes, filter, find, length, map, option_and_then, option_map};
ghost use Rattle.std.specs.Prelude.{unwrap_or, []};
ghost use Rattle.std.specs.List.{enumerate_from, filter_map};
ghost use Rattle.std.specs.Option.{option_map_or};
ghost use Rattle.serde_json.specs.Data.{Data};
ghost use Rattle.serde_json.specs.View.{items_view, view};
ghost use Rattle.vnfd_document.specs.Json.{items_in};
ghost use Rattle.vnfd_document.specs.Places.{property as the_property};
ghost use Rattle.vnfd_document.specs.Seen.{seen};
ghost use Rattle.vnfd_policies.specs.Aspects.{steps as the_steps};
ghost use Rattle.vnfd_policies.specs.Deltas.{step_delta as the_step_delta};
ghost use Rattle.vnfd_policies.specs.Policies.{aims_at as it_aims_at};
ghost use Rattle.vnfd_policies.specs.Rows.{aspect_of as the_aspect_of, aspects_of, delta_in};
ghost use Rattle.vnfd_policies.specs.Rows.{deltas_by as the_deltas_by, policies_for as those_for, row_of as the_row_of};
ghost use Rattle.vnfd_policies.specs.Rows.{rows_of as the_rows_of, step_count as the_step_count};
ghost use Rattle.vnfd_policies.specs.ByType.{HaveAspects, HaveDeltas};

use crate::by_type::Policies;
use crate::deltas::{aspect_name, step_delta, steps};
use crate::scaling::{aspects_in, maximum};
use crate::words::{aims_at, property};
use lcm_events::{Aspect, Listed, Row};
use serde_json::Value;
use std::alloc::{AllocError, Global};
use vnfd_document::{Entry, is_same_text, name_or_empty};

/// The aspects, in byte order of their names.
///
/// Source: SOL 001, tosca.policies.nfv.ScalingAspects and tosca.policies.nfv.VduScalingAspectDeltas.
#[tactic(auto, unfolding(crate::specs::Rows::aspects_of))]
pub fn aspects(
    alloc: Global,
    vdus: &[Entry],
    policies: &Policies,
) -> Result<Listed<Aspect>, AllocError>
    requires aspects { HaveAspects policies.now }
    requires deltas { HaveDeltas policies.now }
    requires vdus { length vdus.now ≤ 64 }
    ensures { IfOk result (λ found. found ≡ aspects_of (map seen vdus.now) (map seen policies.now.all.items)) }
{
    let aspects = aspects_in(alloc, policies)?;
    each_aspect(
        alloc,
        vdus,
        policies.with_deltas.as_slice(),
        aspects.as_slice(),
    )
}

fn each_aspect(
    alloc: Global,
    vdus: &[Entry],
    policies: &[Entry],
    aspects: &[Entry],
) -> Result<Listed<Aspect>, AllocError>
    requires { length vdus.now ≤ 64 }
    ensures { IfOk result (λ found. found ≡ map (the_aspect_of (map seen vdus.now) (map seen policies.now))
        (map seen aspects.now)) }
{
    let mut found = Vec::new(alloc);
    for aspect in aspects {
        found.push(aspect_of(alloc, vdus, policies, aspect)?)?;
    }
    Ok(Listed::of(found))
}

/// An aspect, with its rows.
fn aspect_of(
    alloc: Global,
    vdus: &[Entry],
    policies: &[Entry],
    aspect: &Entry,
) -> Result<Aspect, AllocError>
    requires { length vdus.now ≤ 64 }
    ensures { IfOk result (λ found. found ≡ the_aspect_of (map seen vdus.now) (map seen policies.now)
        (seen aspect.now)) }
{
    let policies = policies_for(alloc, aspect.name, policies)?;
    let rows = rows_of(alloc, vdus, policies.as_slice(), aspect.value)?;
    Ok(Aspect {
        name: name_or_empty(aspect.name),
        maximum: maximum(aspect.value),
        steps: step_count(aspect.value),
        rows,
    })
}

/// The policies that are for the aspect of this name.
fn policies_for<'a>(
    alloc: Global,
    name: &str,
    policies: &[Entry<'a>],
) -> Result<Vec<Entry<'a>>, AllocError>
    ensures { IfOk result (λ found. map seen found.items ≡ those_for name.now (map seen policies.now)) }
{
    let mut found = Vec::new(alloc);
    for policy in policies {
        if is_same_text(aspect_name(policy.value), name) {
            found.push(*policy)?;
        }
    }
    Ok(found)
}

/// How many deltas each row of an aspect has.
#[tactic(auto, using(crate::proofs::ListLaws::count_items))]
fn step_count(aspect: &Value) -> u16
    ensures { result ≡ the_step_count (view aspect.now) }
{
    match steps(aspect) {
        Some(names) if names.len() == 1 => 1,
        _ => maximum(aspect) as u16,
    }
}

/// The rows of an aspect in order of VDU, by the policies that are for it.
fn rows_of(
    alloc: Global,
    vdus: &[Entry],
    policies: &[Entry],
    aspect: &Value,
) -> Result<Listed<Row>, AllocError>
    requires { length vdus.now ≤ 64 }
    ensures { IfOk result (λ found. found ≡ the_rows_of (map seen vdus.now) (map seen policies.now) (view aspect.now)) }
{
    let mut rows = Vec::new(alloc);
    let mut number = 0;
    for vdu in vdus {
        if let Some(row) = row_of(alloc, number, vdu.name, policies, aspect)? {
            rows.push(row)?;
        }
        number += 1;
    }
    Ok(Listed::of(rows))
}

/// The row of the VDU of this name and number, by the policy that aims at it.
fn row_of(
    alloc: Global,
    number: u16,
    vdu: &str,
    policies: &[Entry],
    aspect: &Value,
) -> Result<Option<Row>, AllocError>
    ensures { IfOk result (λ row. row ≡ the_row_of (view aspect.now) (map seen policies.now) number vdu.now) }
{
    let Some(policy) = policy_for(vdu, policies) else {
        return Ok(None);
    };
    Ok(Some(Row {
        vdu: number,
        deltas: deltas_of(alloc, policy.value, aspect)?,
    }))
}

/// The policy that aims at the VDU.
fn policy_for<'a>(vdu: &str, policies: &[Entry<'a>]) -> Option<Entry<'a>>
    ensures { option_map seen result ≡ find (λ p. it_aims_at vdu.now p.1) (map seen policies.now) }
{
    for policy in policies {
        if aims_at(vdu, policy.value) {
            return Some(*policy);
        }
    }
    None
}

/// What each step of an aspect adds by the deltas of a policy.
fn deltas_of(alloc: Global, policy: &Value, aspect: &Value) -> Result<Listed<u32>, AllocError>
    ensures { IfOk result (λ found. found ≡ the_deltas_by (view policy.now) (the_steps (view aspect.now))) }
{
    match steps(aspect) {
        Some(names) => deltas_by(alloc, property(policy, "deltas"), names.as_slice()),
        None => Ok(Listed::new(alloc)),
    }
}

/// What each of these steps adds by the deltas of a policy.
fn deltas_by(
    alloc: Global,
    deltas: Option<&Value>,
    names: &[Value],
) -> Result<Listed<u32>, AllocError>
    ensures { IfOk result (λ found. found ≡ map (delta_in (option_map (λ v. view v.now) deltas.entry))
        (items_in (items_view names.now))) }
{
    let mut found = Vec::new(alloc);
    for name in names {
        found.push(delta_of(deltas, name))?;
    }
    Ok(Listed::of(found))
}

/// What a step adds by the deltas of a policy, or 0 where it has no delta.
fn delta_of(deltas: Option<&Value>, step: &Value) -> u32
    ensures { result ≡ delta_in (option_map (λ v. view v.now) deltas.entry) (view step.now) }
{
    match deltas {
        Some(deltas) => step_delta(deltas, step).unwrap_or(0),
        None => 0,
    }
}
