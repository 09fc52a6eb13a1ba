//! What the checks of policies share: what stands in a policy, and what it aims at.
ghost use Rattle.std.specs.Prelude.{◌≡◌, List, ℕ, [], IfOk, find, map, option_map, unwrap_or, false, true};
ghost use Rattle.std.specs.List.{list_any};
ghost use Rattle.std.specs.Option.{option_map_or};
ghost use Rattle.std.specs.Str.{bytes_eq};
ghost use Rattle.serde_json.specs.View.{items_view, view};
ghost use Rattle.vnfd_document.specs.Checks.{Refuses, fault_of, first_failing};
ghost use Rattle.vnfd_document.specs.Json.{items_in};
ghost use Rattle.vnfm_base.specs.Text.{is_label};
ghost use Rattle.vnfd_document.specs.Places.{property as the_property, targets as the_targets, texts_of};
ghost use Rattle.vnfd_document.specs.Seen.{seen};
ghost use Rattle.vnfd_policies.specs.Policies.{aims_at as it_aims_at, is_named as one_is_named, targets_refusal};
ghost use Rattle.vnfd_policies.specs.Policies.{too_many, unknown_in};

use serde_json::Value;
use std::alloc::Global;
use vnfd_document::{Entry, VnfdFault, at, is_same_text, label, targets, unknown};

/// The member of this name of a policy's properties.
pub fn property<'a>(policy: &'a Value, name: &str) -> Option<&'a Value>
    ensures { option_map (λ v. view v.now) result ≡ the_property name.now (view policy.now) }
{
    at(policy, &["properties", name])
}

/// Whether one of these things has this name.
pub fn is_named(things: &[Entry], name: &str) -> bool
    ensures { result ≡ one_is_named name.now (map seen things.now) }
{
    for thing in things {
        if is_same_text(thing.name, name) {
            return true;
        }
    }
    false
}

/// The first of these things that has this name.
pub fn named<'a>(things: &[Entry<'a>], name: &str) -> Option<Entry<'a>>
    ensures { option_map seen result ≡ find (λ x. bytes_eq x.0 name.now) (map seen things.now) }
{
    for thing in things {
        if is_same_text(thing.name, name) {
            return Some(*thing);
        }
    }
    None
}

/// Whether the policy aims at the VDU of this name.
pub fn aims_at(vdu: &str, policy: &Value) -> bool
    ensures { result ≡ it_aims_at vdu.now (view policy.now) }
{
    let Some(value) = policy.get("targets") else {
        return false;
    };
    match value.as_array() {
        Some(list) => are_texts_with(vdu, list.as_slice()),
        None => false,
    }
}

/// Whether all these values are texts, and one of them is this text.
fn are_texts_with(text: &str, values: &[Value]) -> bool
    ensures { result ≡ option_map_or (list_any (bytes_eq text.now))
        (texts_of (items_in (items_view values.now))) false }
{
    let mut found = false;
    for value in values {
        match value.as_str() {
            Some(other) => found = found || is_same_text(text, other),
            None => return false,
        }
    }
    found
}

/// There are at most so many of these.
pub fn refuse_more(most: usize, what: &str, things: &[Entry]) -> Result<(), VnfdFault>
    requires { is_label what.now ≡ true }
    ensures { fault_of result ≡ too_many most what.now (map seen things.now) }
{
    if things.len() > most {
        return Err(VnfdFault::TooMany(label(what)));
    }
    Ok(())
}

/// A text names one of these.
pub fn refuse_unknown(things: &[Entry], name: &str) -> Result<(), VnfdFault>
    ensures { fault_of result ≡ unknown_in (map seen things.now) name.now }
{
    if is_named(things, name) {
        Ok(())
    } else {
        Err(unknown(name))
    }
}

/// Each of these texts names a VDU.
fn refuse_unknown_targets(vdus: &[Entry], names: &[&str]) -> Result<(), VnfdFault>
    ensures { fault_of result ≡ first_failing (unknown_in (map seen vdus.now)) (map (λ name. name.now) names.now) }
{
    for name in names {
        refuse_unknown(vdus, *name)?;
    }
    Ok(())
}

/// What a policy aims at, which are VDUs.
pub fn known_targets<'a>(
    alloc: Global,
    vdus: &[Entry],
    policy: &'a Value,
) -> Result<Vec<&'a str>, VnfdFault>
    ensures refuses { Refuses result (targets_refusal (map seen vdus.now) (the_targets (view policy.now))) }
    ensures known { IfOk result (λ names. map (λ name. name.now) names.items
        ≡ unwrap_or (the_targets (view policy.now)) []) }
{
    let Some(names) = targets(alloc, policy)? else {
        return Err(VnfdFault::Wrong(label("targets")));
    };
    refuse_unknown_targets(vdus, names.as_slice())?;
    Ok(names)
}
