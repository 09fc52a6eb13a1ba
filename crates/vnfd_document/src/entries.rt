//! Named things of the document: node templates, policies, requirements, members of an object.
ghost use Rattle.std.specs.Prelude.{◌≡◌, IfOk, filter, map, option_map, []};
ghost use Rattle.std.specs.Option.{option_map_or};
ghost use Rattle.serde_json.specs.View.{members_view, view};
ghost use Rattle.vnfd_document.specs.Json.{members_in as the_members_in, members_of as the_members_of};
ghost use Rattle.vnfd_document.specs.Json.{only_member as the_only_member};
ghost use Rattle.vnfd_document.specs.Places.{node_templates, of_type as those_of_type};
ghost use Rattle.vnfd_document.specs.Seen.{seen};

use crate::look_ups::{at, has_type};
use serde_json::{Map, Value};
use std::alloc::{AllocError, Global};

/// A name in the document, with what stands under it.
#[derive(Clone, Copy)]
pub struct Entry<'a> {
    pub name: &'a str,
    pub value: &'a Value,
}

/// The members of an object, in byte order of their names.
pub fn members<'a>(
    alloc: Global,
    object: &'a Map<String, Value>,
) -> Result<Vec<Entry<'a>>, AllocError>
    ensures { IfOk result (λ found. map seen found.items ≡ the_members_in (members_view object.now.entries)) }
{
    let mut found = Vec::new(alloc);
    for (key, value) in object.iter() {
        found.push(Entry {
            name: key.as_str(),
            value,
        })?;
    }
    Ok(found)
}

/// The members of what stands there, in byte order of their names; none where nothing stands there, or no object.
pub fn members_in<'a>(alloc: Global, value: Option<&'a Value>) -> Result<Vec<Entry<'a>>, AllocError>
    ensures { IfOk result (λ found. map seen found.items ≡ option_map_or the_members_of
        (option_map (λ v. view v.now) value.entry) []) }
{
    match value {
        Some(value) => members_of(alloc, value),
        None => Ok(Vec::new(alloc)),
    }
}

fn members_of<'a>(alloc: Global, value: &'a Value) -> Result<Vec<Entry<'a>>, AllocError>
    ensures { IfOk result (λ found. map seen found.items ≡ the_members_of (view value.now)) }
{
    match value.as_object() {
        Some(object) => members(alloc, object),
        None => Ok(Vec::new(alloc)),
    }
}

/// The things of this type, in the same order.
pub fn of_type<'a>(
    alloc: Global,
    things: &[Entry<'a>],
    kind: &str,
) -> Result<Vec<Entry<'a>>, AllocError>
    ensures { IfOk result (λ found. map seen found.items ≡ those_of_type kind.now (map seen things.now)) }
{
    let mut found = Vec::new(alloc);
    for thing in things {
        if has_type(kind, thing.value) {
            found.push(*thing)?;
        }
    }
    Ok(found)
}

/// The member of an object that has just one.
pub fn only_member(value: &Value) -> Option<Entry>
    ensures { option_map seen result ≡ the_only_member (view value.now) }
{
    let mut members = value.as_object()?.iter();
    let (key, value) = members.next()?;
    if members.next().is_some() {
        return None;
    }
    Some(Entry {
        name: key.as_str(),
        value,
    })
}

/// The node templates, in byte order of their names. `None` where there are none.
pub fn templates_in<'a>(
    alloc: Global,
    document: &'a Value,
) -> Result<Option<Vec<Entry<'a>>>, AllocError>
    ensures { IfOk result (λ found. option_map (λ templates. map seen templates.items) found
        ≡ node_templates (view document.now)) }
{
    let Some(templates) = at(document, &["topology_template", "node_templates"]) else {
        return Ok(None);
    };
    match templates.as_object() {
        Some(object) => Ok(Some(members(alloc, object)?)),
        None => Ok(None),
    }
}
