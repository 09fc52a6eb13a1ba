//! The places that a grant gives to changes.

ghost use Rattle.std.specs.Prelude.{◌≡◌, ◌↔◌, IsTrue, IfOk, nat_lt, slice_get};
ghost use Rattle.std.specs.List.{list_all, list_any};
ghost use Rattle.lcm_model.specs.Grants.{IsPlacing, distinct_places, place_at, places_at, same_place, same_places};

use lcm_events::Place;
use std::alloc::{AllocError, Global};

/// The place of a change by these places and their numbers.
///
/// Source: docs/MODEL.md, "Grants".
pub fn place_in(places: &[Place], spots: &[u8], change: u16) -> Option<Place>
    ensures { result ≡ place_at places.now spots.now change }
{
    let spot = *spots.get(change as usize)?;
    places.get(spot as usize).copied()
}

/// The place of this number in a list.
fn place_numbered(places: &[Place], spot: u8) -> Option<Place>
    ensures { result ≡ slice_get places.now spot }
{
    places.get(spot as usize).copied()
}

/// The places that these numbers name in a list.
fn places_named(alloc: Global, places: &[Place], spots: &[u8]) -> Result<Vec<Place>, AllocError>
    ensures { IfOk result (λ v. v.items ≡ places_at places.now spots.now) }
{
    let mut named = Vec::new(alloc);
    for spot in spots {
        if let Some(place) = place_numbered(places, *spot) {
            named.push(place)?;
        }
    }
    Ok(named)
}

/// Whether a place is in a list.
///
/// Source: own rule.
pub fn is_seen(seen: &[Place], place: &Place) -> bool
    ensures { result ≡ list_any (same_place place.now) seen.now }
{
    for other in seen {
        if *place == *other {
            return true;
        }
    }
    false
}

/// Each place once, where it comes first.
///
/// Source: docs/MODEL.md, "Grants".
pub fn each_once(alloc: Global, places: &[Place]) -> Result<Vec<Place>, AllocError>
    ensures { IfOk result (λ v. v.items ≡ distinct_places places.now) }
{
    let mut seen: Vec<Place> = Vec::new(alloc);
    for place in places {
        let known = is_seen(seen.as_slice(), place);
        if !known {
            seen.push(*place)?;
        }
    }
    Ok(seen)
}

/// Whether two lists of places are equal.
fn are_same_places(a: &[Place], b: &[Place]) -> bool
    ensures { result ≡ same_places a.now b.now }
{
    a == b
}

/// Whether each number names a place of a list.
fn are_spots_known(spots: &[u8], count: usize) -> bool
    ensures { result ≡ list_all (λ n. nat_lt n count) spots.now }
{
    spots.iter().all(|spot| (*spot as usize) < count)
}

/// Whether places are named in the order of the first change that has them.
///
/// Source: docs/MODEL.md, "Allowed and legal".
pub fn is_placing(
    alloc: Global,
    places: &[Place],
    spots: &[u8],
    asked: usize,
) -> Result<bool, AllocError>
    ensures { IfOk result (λ yes. IsTrue yes ↔ IsPlacing places.now spots.now asked) }
{
    let named = places_named(alloc, places, spots)?;
    let distinct = each_once(alloc, named.as_slice())?;
    let known = are_spots_known(spots, places.len());
    let in_order = are_same_places(distinct.as_slice(), places);
    Ok(spots.len() == asked && known && in_order && places.len() <= 32)
}
