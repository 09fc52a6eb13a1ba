//! What an attempt that is done did to what stands of an instance.

ghost use Rattle.std.specs.Prelude.{◌≡◌, ◌<◌, IfOk, length, map, option_and_then, slice_get, unwrap_or};
ghost use Rattle.lcm_model.specs.Grants.{place_at};
ghost use Rattle.held_items.specs.Following.{once_done};
ghost use Rattle.held_items.specs.Items.{AreInOrder};
ghost use Rattle.instance_table.specs.Steps.{place_by, stood_in, work_in};

use crate::going::Going;
use held_items::{Editor, find};
use lcm_events::{Change, Def, Held, Listed, Place, Tag, Verb, Way};
use lcm_model::{place_in, verb_in_way};
use std::alloc::{AllocError, Global};
use vnfm_base::Name;

/// What an attempt that is done did.
#[derive(Clone, Copy)]
pub struct Work {
    /// The number of the instance.
    pub instance: u64,
    /// What was done.
    pub verb: Verb,
    /// To which definition.
    pub def: Def,
    /// The infrastructure's name of the resource.
    pub resource: Name,
    /// At which place, which tells where something was made.
    pub place: Option<Place>,
}

/// Where what a change removes stands; none for another change.
fn stood_in(items: &[Held], change: &Change) -> Option<Place>
    ensures { AreInOrder items.now → result ≡ stood_in items.now change.now }
{
    if change.verb != Verb::Remove {
        return None;
    }
    match find(items, change.def) {
        Some(item) => Some(item.place),
        None => None,
    }
}

/// For each change that removes something, where that stands.
pub fn stood_of(
    alloc: Global,
    items: &[Held],
    changes: &[Change],
) -> Result<Listed<Option<Place>>, AllocError>
    ensures { AreInOrder items.now → IfOk result (λ l. l ≡ map (stood_in items.now) changes.now) }
{
    let mut places = Vec::new(alloc);
    for change in changes {
        places.push(stood_in(items, change))?;
    }
    Ok(Listed::of(places))
}

/// The place that the grant of an operation gave to a change.
fn place_granted(going: &Going, change: u16) -> Option<Place>
    ensures { result ≡ option_and_then (λ p. place_at p.places p.spots change) going.now.placing }
{
    match &going.placing {
        Some(placing) => place_in(placing.places.as_slice(), placing.spots.as_slice(), change),
        None => None,
    }
}

/// The place where what a change removes stood.
fn place_stood(going: &Going, change: u16) -> Option<Place>
    ensures { result ≡ unwrap_or (slice_get going.now.stood change) None }
{
    match going.stood.as_slice().get(change as usize) {
        Some(place) => *place,
        None => None,
    }
}

/// The place at which an attempt makes something.
fn place_by(going: &Going, tag: &Tag) -> Option<Place>
    ensures { result ≡ place_by tag.now going.now }
{
    match tag.way {
        Way::Forward => place_granted(going, tag.change),
        Way::Undo => place_stood(going, tag.change),
    }
}

/// What an attempt of an operation did; none where the operation has no such change.
pub fn work_in(going: &Going, tag: &Tag, name: Name) -> Option<Work>
    ensures { result ≡ work_in tag.now name going.now }
{
    match going.changes.as_slice().get(tag.change as usize) {
        Some(change) => Some(Work {
            instance: going.instance,
            verb: verb_in_way(tag.way, change.verb),
            def: change.def,
            resource: name,
            place: place_by(going, tag),
        }),
        None => None,
    }
}

/// Lets the items of an instance follow what was done to one of them.
pub fn do_in(items: &mut Listed<Held>, editor: &mut Editor, work: &Work)
    ensures { length items.old < editor.old → AreInOrder items.old
        → items.new ≡ once_done work.now.verb work.now.def work.now.resource work.now.place items.old }
{
    let fits = work.verb != Verb::Create || items.len() < editor.room();
    if fits {
        editor.follow(
            items,
            work.verb,
            work.def,
            &work.resource,
            work.place.as_ref(),
        );
    }
}
