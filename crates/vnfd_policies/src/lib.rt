//! The policies of a descriptor: what is wrong with them first, and the aspects, initial deltas and levels that they
//! are.
#![tactic(auto)]

ghost use Rattle.std.specs.Prelude.{◌≡◌, ◌&&◌, codes, map, option_map};
ghost use Rattle.std.specs.List.{flat_map, list_all};
ghost use Rattle.std.specs.Option.{option_map_or};
ghost use Rattle.serde_json.specs.View.{view, members_view};
ghost use Rattle.vnfd_document.specs.Checks.{Refuses};
ghost use Rattle.vnfd_document.specs.Json.{members_in, members_of};
ghost use Rattle.vnfd_document.specs.Names.{is_given_name};
ghost use Rattle.vnfd_document.specs.Places.{property as the_property};
ghost use Rattle.vnfd_document.specs.Seen.{seen};
ghost use Rattle.vnfd_policies.specs.Policies.{members_at};
ghost use Rattle.vnfd_policies.specs.Refusal.{policies_refusal, policy_names};
ghost use Rattle.vnfd_policies.specs.ByType.{HaveAspects, HaveDeltas, HaveInitials, HaveLevels};

use serde_json::{Map, Value};
use std::alloc::Global;
use vnfd_document::{Entry, VnfdFault, is_given};

mod aspect_steps;
mod bounds;
mod by_type;
mod deltas;
mod initial_deltas;
mod instantiation;
mod rows;
mod scaling;
mod steps;
mod words;

use crate::deltas::refuse_deltas;
use crate::initial_deltas::refuse_initials;
use crate::instantiation::refuse_levels;
use crate::scaling::refuse_aspects;
use crate::words::property;
pub use bounds::limits;
pub use by_type::{Policies, policies_by_type};
pub use initial_deltas::initial;
pub use instantiation::{default_level, levels};
pub use rows::aspects;

/// Whether the names of all aspects and of all levels are names that aren't empty.
#[tactic(auto, using(crate::proofs::ListLaws::names_given), unfolding(crate::specs::Refusal::policy_names))]
pub fn are_policy_names_given(policies: &Policies) -> bool
    requires aspects { HaveAspects policies.now }
    requires levels { HaveLevels policies.now }
    ensures { result ≡ list_all is_given_name (policy_names (map seen policies.now.all.items)) }
{
    are_names_given(policies.with_aspects.as_slice(), "aspects")
        && are_names_given(policies.with_levels.as_slice(), "levels")
}

/// Whether the members of this property of these policies have names that aren't empty.
fn are_names_given(policies: &[Entry], name: &str) -> bool
    ensures { result ≡ list_all (λ m. is_given_name m.0) (flat_map (λ p. members_at (the_property name.now p.1))
        (map seen policies.now)) }
{
    for policy in policies {
        if !are_members_given(property(policy.value, name)) {
            return false;
        }
    }
    true
}

fn are_members_given(value: Option<&Value>) -> bool
    ensures { result ≡ list_all (λ m. is_given_name m.0) (members_at (option_map (λ v. view v.now) value.entry)) }
{
    match value {
        Some(value) => are_given_in(value),
        None => true,
    }
}

fn are_given_in(value: &Value) -> bool
    ensures { result ≡ list_all (λ m. is_given_name m.0) (members_of (view value.now)) }
{
    match value.as_object() {
        Some(object) => are_keys_given(object),
        None => true,
    }
}

fn are_keys_given(object: &Map<String, Value>) -> bool
    ensures { result ≡ list_all (λ m. is_given_name m.0) (members_in (members_view object.now.entries)) }
{
    for (key, _value) in object.iter() {
        if !is_given(key.as_str()) {
            return false;
        }
    }
    true
}

/// The first thing that is wrong with the policies: with the aspects, with what their steps add to the VDUs, with the
/// initial deltas, with the levels.
///
/// Source: SOL 001, the policies on scaling; limits and order: own rule.
#[tactic(auto, unfolding(crate::specs::Refusal::policies_refusal))]
pub fn refuse_policies<'a>(
    alloc: Global,
    vdus: &[Entry<'a>],
    policies: &Policies<'a>,
) -> Result<(), VnfdFault>
    requires aspects { HaveAspects policies.now }
    requires deltas { HaveDeltas policies.now }
    requires initials { HaveInitials policies.now }
    requires levels { HaveLevels policies.now }
    ensures { Refuses result (policies_refusal (map seen vdus.now) (map seen policies.now.all.items)) }
{
    refuse_aspects(alloc, policies)?;
    refuse_deltas(alloc, vdus, policies)?;
    refuse_initials(alloc, vdus, policies)?;
    refuse_levels(alloc, policies)
}
