//! The steps of each aspect by name, each name once, so that no policy looks one up again.
ghost use Rattle.std.specs.Prelude.{◌≡◌, ◌&&◌, ◌<◌, Bool, IfOk, find, length, map, option_map};
ghost use Rattle.std.specs.List.{list_all, list_any};
ghost use Rattle.std.specs.Str.{bytes_eq};
ghost use Rattle.serde_json.specs.Data.{Data};
ghost use Rattle.serde_json.specs.View.{items_view, view};
ghost use Rattle.vnfd_document.specs.Json.{items_in};
ghost use Rattle.vnfd_document.specs.Seen.{seen};
ghost use Rattle.vnfd_policies.specs.Aspects.{steps as the_steps};
ghost use Rattle.vnfd_policies.specs.AspectsSeen.{aspect_seen};
ghost use Rattle.vnfd_policies.specs.Deltas.{AreSameSteps, are_same_text as the_are_same_text};

use crate::aspect_steps::Steps;
use crate::deltas::steps;
use serde_json::Value;
use std::alloc::{AllocError, Global};
use vnfd_document::{Entry, is_same_text};

/// The steps of each of these aspects.
pub fn steps_of_each<'a>(alloc: Global, aspects: &[Entry<'a>]) -> Result<Vec<Steps<'a>>, AllocError>
    ensures { IfOk result (λ found. map aspect_seen found.items ≡ map seen aspects.now) }
{
    let mut found = Vec::new(alloc);
    for aspect in aspects {
        found.push(steps_of(alloc, aspect)?)?;
    }
    Ok(found)
}

/// The steps of an aspect.
fn steps_of<'a>(alloc: Global, aspect: &Entry<'a>) -> Result<Steps<'a>, AllocError>
    ensures { IfOk result (λ found. aspect_seen found ≡ seen aspect.now) }
{
    let names = names_of(alloc, aspect.value)?;
    Ok(Steps {
        aspect: *aspect,
        names,
    })
}

fn names_of<'a>(alloc: Global, aspect: &'a Value) -> Result<Vec<&'a Value>, AllocError>
    ensures { IfOk result (λ found. AreSameSteps (map (λ v. view v.now) found.items) (the_steps (view aspect.now))) }
{
    match steps(aspect) {
        Some(names) => each_once(alloc, names.as_slice()),
        None => Ok(Vec::new(alloc)),
    }
}

/// These names, each once.
fn each_once<'a>(alloc: Global, names: &'a [Value]) -> Result<Vec<&'a Value>, AllocError>
    ensures { IfOk result (λ found. AreSameSteps (map (λ v. view v.now) found.items)
        (items_in (items_view names.now))) }
{
    let mut found = Vec::new(alloc);
    for name in names {
        add_once(&mut found, name)?;
    }
    Ok(found)
}

/// Adds a name, unless it is there.
#[tactic(auto, using(crate::proofs::StepLaws::added, crate::proofs::StepLaws::absorbed))]
fn add_once<'a>(found: &mut Vec<&'a Value>, name: &'a Value) -> Result<(), AllocError>
    ensures all { IfOk result (λ done. (test : Data → Bool)
        → list_all test (map (λ v. view v.now) found.new.items)
        ≡ (list_all test (map (λ v. view v.now) found.old.items) && test (view name.now))) }
    ensures some { IfOk result (λ done. 0 < length found.new.items) }
{
    if is_among(found.as_slice(), name) {
        return Ok(());
    }
    found.push(name)?;
    Ok(())
}

/// Whether the text is one of these.
fn is_among(names: &[&Value], wanted: &Value) -> bool
    ensures { result ≡ list_any (the_are_same_text (view wanted.now)) (map (λ v. view v.now) names.now) }
{
    for name in names {
        if are_same_text(wanted, *name) {
            return true;
        }
    }
    false
}

/// Whether the values are the same text.
fn are_same_text(a: &Value, b: &Value) -> bool
    ensures { result ≡ the_are_same_text (view a.now) (view b.now) }
{
    match (a.as_str(), b.as_str()) {
        (Some(a), Some(b)) => is_same_text(a, b),
        _ => false,
    }
}

/// The steps of the aspect of this name.
pub fn steps_named<'a, 'b>(all: &'b [Steps<'a>], name: &str) -> Option<&'b Steps<'a>>
    ensures { option_map (λ s. aspect_seen s.now) result ≡ find (λ a. bytes_eq a.0 name.now) (map aspect_seen all.now) }
{
    for steps in all {
        if is_same_text(steps.aspect.name, name) {
            return Some(steps);
        }
    }
    None
}
