//! Policies, in byte order of their names, and what they aim at.
ghost use Rattle.std.specs.Prelude.{◌≡◌, IfOk, List, ℕ, map, option_map};
ghost use Rattle.std.specs.List.{filter_map};
ghost use Rattle.serde_json.specs.View.{items_view, view};
ghost use Rattle.vnfd_document.specs.Json.{items_in, only_member as the_only_member};
ghost use Rattle.vnfd_document.specs.Places.{by_name, policies, policies_in as those_in, targets as the_targets};
ghost use Rattle.vnfd_document.specs.Places.{texts_of};
ghost use Rattle.vnfd_document.specs.Seen.{seen};

use crate::entries::{Entry, members, only_member};
use crate::look_ups::at;
use serde_json::Value;
use std::alloc::{AllocError, Global};

/// The policies, in byte order of their names, and those of one name in the order of the list.
pub fn policies_in<'a>(alloc: Global, document: &'a Value) -> Result<Vec<Entry<'a>>, AllocError>
    ensures { IfOk result (λ found. map seen found.items ≡ policies (view document.now)) }
{
    match at(document, &["topology_template", "policies"]) {
        Some(value) => policies_of(alloc, value),
        None => Ok(Vec::new(alloc)),
    }
}

fn policies_of<'a>(alloc: Global, value: &'a Value) -> Result<Vec<Entry<'a>>, AllocError>
    ensures { IfOk result (λ found. map seen found.items ≡ those_in (view value.now)) }
{
    if let Some(object) = value.as_object() {
        return members(alloc, object);
    }
    match value.as_array() {
        Some(list) => in_order(named(alloc, list.as_slice())?),
        None => Ok(Vec::new(alloc)),
    }
}

/// The members of those values that are objects with just one.
pub(crate) fn named<'a>(alloc: Global, values: &'a [Value]) -> Result<Vec<Entry<'a>>, AllocError>
    ensures { IfOk result (λ found. map seen found.items ≡ filter_map the_only_member
        (items_in (items_view values.now))) }
{
    let mut found = Vec::new(alloc);
    for value in values {
        if let Some(member) = only_member(value) {
            found.push(member)?;
        }
    }
    Ok(found)
}

/// The same things in byte order of their names, and those of one name in their order.
fn in_order(mut things: Vec<Entry>) -> Result<Vec<Entry>, AllocError>
    ensures { IfOk result (λ found. map seen found.items ≡ by_name (map seen things.entry.items)) }
{
    things.sort_by_key(|thing| thing.name)?;
    Ok(things)
}

/// What a policy aims at: none where it has no targets, and the texts of the list where it is one; else `None`.
pub fn targets<'a>(alloc: Global, policy: &'a Value) -> Result<Option<Vec<&'a str>>, AllocError>
    ensures { IfOk result (λ found. option_map (λ texts. map (λ text. text.now) texts.items) found
        ≡ the_targets (view policy.now)) }
{
    let Some(value) = policy.get("targets") else {
        return Ok(Some(Vec::new(alloc)));
    };
    match value.as_array() {
        Some(list) => texts(alloc, list.as_slice()),
        None => Ok(None),
    }
}

/// The texts of these values, where each is one.
fn texts<'a>(alloc: Global, values: &'a [Value]) -> Result<Option<Vec<&'a str>>, AllocError>
    ensures { IfOk result (λ found. option_map (λ texts. map (λ text. text.now) texts.items) found
        ≡ texts_of (items_in (items_view values.now))) }
{
    let mut found = Vec::new(alloc);
    for value in values {
        match value.as_str() {
            Some(text) => found.push(text)?,
            None => return Ok(None),
        }
    }
    Ok(Some(found))
}
