//! What a grant that covers a plan records: its distinct places, and the number of the place of each change.
ghost use Rattle.std.specs.Prelude.{◌≡◌, ◌≤◌, ℕ, List, IfOk, None, Some, length, replicate, true, filter_map};
ghost use Rattle.lcm_events.specs.declared.events.Event.{Event};
ghost use Rattle.lcm_events.specs.declared.events.EventKind.TheVariants.{Granted};
ghost use Rattle.lcm_model.specs.Allowed.{IsAllowedWithin, IsAsking};
ghost use Rattle.lcm_model.specs.Descriptors.{is_given};
ghost use Rattle.lcm_model.specs.Grants.{IsPlacing, covers, granted_places, granted_spots, place_number, row_places};
ghost use Rattle.lcm_model.specs.Operations.{changes as changes_of};
ghost use Rattle.grant_desk.specs.Placing.{FoundByRow, FoundByRows};

use crate::identifiers::change_number;
use crate::parts::{Part, asks};
use crate::rows::{GrantRow, GrantRows};
use lcm_events::{Change, Listed, Place};
use lcm_model::each_once;
use std::alloc::{AllocError, Global};

/// What a grant gives the changes of a plan, as its event records it.
///
/// Source: SOL 003 9.5.2.3 (Grant); own format.
#[derive(Drop)]
pub struct Placing {
    /// The distinct places, in the order of the first change that has them.
    pub places: Listed<Place>,
    /// The number of the place of each change.
    pub spots: Listed<u8>,
}

/// What a grant that covers a plan gives its changes. The time is linear in the changes and the rows. `AllocError` is
/// want of memory.
///
/// Condition: the grant covers the changes (`covers`).
/// Source: SOL 003 9.5.2.3 (Grant); own format.
pub fn places_of(alloc: Global, changes: &[Change], rows: &GrantRows) -> Result<Placing, AllocError>
    requires { covers changes.now rows.now.add rows.now.remove rows.now.update ≡ true }
    ensures places { IfOk result (λ placing. placing.places
        ≡ granted_places changes.now rows.now.add rows.now.remove rows.now.update) }
    ensures spots { IfOk result (λ placing. placing.spots
        ≡ granted_spots changes.now rows.now.add rows.now.remove rows.now.update) }
    ensures allowed { (width m : ℕ) (H : List Event) (o : ℕ) → IsAsking H o → changes_of H o ≡ changes.now
        → is_given rows.now.grant ≡ true
        → IfOk result (λ placing. IsAllowedWithin width m H (Granted o rows.now.grant placing.places placing.spots)) }
{
    let given = places_by_change(alloc, changes, rows)?;
    let places = each_once(alloc, given.as_slice())?;
    let spots = numbers_in(alloc, places.as_slice(), given.as_slice())?;
    Ok(Placing {
        places: Listed::of(places),
        spots: Listed::of(spots),
    })
}

/// The places that rows give to changes, in the order of the plan.
fn places_by_change(
    alloc: Global,
    changes: &[Change],
    rows: &GrantRows,
) -> Result<Vec<Place>, AllocError>
    ensures { IfOk result (λ places. places.items ≡ row_places changes.now rows.now.add rows.now.remove
        rows.now.update) }
{
    let mut found = no_places(alloc, changes.len())?;
    find_all(&mut found, changes, rows);
    those_found(alloc, found.as_slice())
}

/// Finds the places of the changes, where none was found for any.
fn find_all(found: &mut [Option<Place>], changes: &[Change], rows: &GrantRows)
    requires { found.old ≡ replicate (length changes.now) None }
    ensures length { length found.new ≡ length found.old }
    ensures found { filter_map (λ place. place) found.new
        ≡ row_places changes.now rows.now.add rows.now.remove rows.now.update }
{
    find_rows(found, changes, Part::Add, rows.add.as_slice());
    find_rows(found, changes, Part::Remove, rows.remove.as_slice());
    find_rows(found, changes, Part::Update, rows.update.as_slice());
}

/// So many changes for which no place was found.
fn no_places(alloc: Global, count: usize) -> Result<Vec<Option<Place>>, AllocError>
    ensures { IfOk result (λ found. found.items ≡ replicate count None) }
{
    let mut found = Vec::new(alloc);
    for _ in 0..count {
        found.push(None)?;
    }
    Ok(found)
}

/// Finds the place of the change that a row of a part names, where it is one that is asked for there and none was found
/// for it.
fn find_row(found: &mut [Option<Place>], changes: &[Change], part: Part, row: &GrantRow)
    requires { length found.old ≡ length changes.now }
    ensures { FoundByRow part row.now changes.now found.old found.new }
{
    let Some(number) = change_number(&row.0) else {
        return;
    };
    if number >= changes.len() as u64 {
        return;
    }
    let k = number as usize;
    if asks(part, changes[k].verb) && found[k].is_none() {
        found[k] = Some(row.1);
    }
}

/// Finds the places of the changes that the rows of a part name.
fn find_rows(found: &mut [Option<Place>], changes: &[Change], part: Part, rows: &[GrantRow])
    requires { length found.old ≡ length changes.now }
    ensures { FoundByRows part rows.now changes.now found.old found.new }
{
    for row in rows {
        find_row(found, changes, part, row);
    }
}

/// The places that were found.
fn those_found(alloc: Global, found: &[Option<Place>]) -> Result<Vec<Place>, AllocError>
    ensures { IfOk result (λ places. places.items ≡ filter_map (λ place. place) found.now) }
{
    let mut places = Vec::new(alloc);
    for place in found {
        if let Some(place) = place {
            places.push(*place)?;
        }
    }
    Ok(places)
}

/// The number of a place in a list: that of the first that is the same.
fn number_in(places: &[Place], place: &Place) -> Option<u8>
    requires { length places.now ≤ 32 }
    ensures { result ≡ place_number places.now place.now }
{
    for (number, other) in places.iter().enumerate() {
        if *other == *place {
            return Some(number as u8);
        }
    }
    None
}

/// The numbers of these places in a list, of those that are in it.
fn numbers_in(alloc: Global, places: &[Place], given: &[Place]) -> Result<Vec<u8>, AllocError>
    requires { length places.now ≤ 32 }
    ensures { IfOk result (λ numbers. numbers.items ≡ filter_map (place_number places.now) given.now) }
{
    let mut numbers = Vec::new(alloc);
    for place in given {
        if let Some(number) = number_in(places, place) {
            numbers.push(number)?;
        }
    }
    Ok(numbers)
}
