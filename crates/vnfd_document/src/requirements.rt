//! What templates require.
ghost use Rattle.std.specs.Prelude.{◌≡◌, IfOk, map};
ghost use Rattle.serde_json.specs.View.{view};
ghost use Rattle.vnfd_document.specs.Json.{named_entries};
ghost use Rattle.vnfd_document.specs.Places.{required as those_required, requirements as the_requirements, under};
ghost use Rattle.vnfd_document.specs.Seen.{seen};

use crate::entries::Entry;
use crate::look_ups::is_same_text;
use crate::policies::named;
use serde_json::Value;
use std::alloc::{AllocError, Global};

/// What a template requires under this name, in the order of its list.
pub fn required<'a>(
    alloc: Global,
    template: &'a Value,
    kind: &str,
) -> Result<Vec<&'a Value>, AllocError>
    ensures { IfOk result (λ found. map (λ v. view v.now) found.items ≡ those_required kind.now (view template.now)) }
{
    let things = requirements(alloc, template)?;
    values_under(alloc, things.as_slice(), kind)
}

fn requirements<'a>(alloc: Global, template: &'a Value) -> Result<Vec<Entry<'a>>, AllocError>
    ensures { IfOk result (λ found. map seen found.items ≡ the_requirements (view template.now)) }
{
    match template.get("requirements") {
        Some(list) => named_in(alloc, list),
        None => Ok(Vec::new(alloc)),
    }
}

fn named_in<'a>(alloc: Global, list: &'a Value) -> Result<Vec<Entry<'a>>, AllocError>
    ensures { IfOk result (λ found. map seen found.items ≡ named_entries (view list.now)) }
{
    match list.as_array() {
        Some(values) => named(alloc, values.as_slice()),
        None => Ok(Vec::new(alloc)),
    }
}

/// What stands under this name, in order.
fn values_under<'a>(
    alloc: Global,
    things: &[Entry<'a>],
    kind: &str,
) -> Result<Vec<&'a Value>, AllocError>
    ensures { IfOk result (λ found. map (λ v. view v.now) found.items ≡ under kind.now (map seen things.now)) }
{
    let mut found = Vec::new(alloc);
    for thing in things {
        if is_same_text(kind, thing.name) {
            found.push(thing.value)?;
        }
    }
    Ok(found)
}
