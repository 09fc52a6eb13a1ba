//! The distinct places of the rows of a grant, without memory: one more than a grant may have ends the walk.
ghost use Rattle.std.specs.Prelude.{◌≡◌, ◌↔◌, ◌≤◌, ◌++◌, [], IsTrue, length, map, take};
ghost use Rattle.lcm_model.specs.Grants.{distinct_places};
ghost use Rattle.grant_desk.specs.Seen.{Sees};

use crate::rows::{GrantRow, GrantRows};
use lcm_events::Place;
use lcm_model::is_seen;
use vnfm_base::Name;

/// The most distinct places of a grant.
const PLACES_MAX: usize = 32;

/// The empty name.
pub fn no_name() -> Name
    ensures { result ≡ [] }
{
    Name::of(b"").unwrap()
}

/// Puts the places of these rows that weren't seen behind those that were, which are so many at the front of the room,
/// and answers how many there are; `None` exactly where they are more than the room.
fn see_rows(room: &mut [Place], seen: usize, rows: &[GrantRow]) -> Option<usize>
    requires { seen ≤ length room.old }
    ensures length { length room.new ≡ length room.old }
    ensures sees { Sees (take seen room.old) rows.now result room.new }
{
    let mut count = seen;
    for row in rows {
        if !is_seen(&room[..count], &row.1) {
            if count == room.len() {
                return None;
            }
            room[count] = row.1;
            count += 1;
        }
    }
    Some(count)
}

/// Puts the distinct places of all rows into the room, and answers how many there are; `None` exactly where they are
/// more than the room.
fn see_all(room: &mut [Place], rows: &GrantRows) -> Option<usize>
    ensures length { length room.new ≡ length room.old }
    ensures sees { Sees [] (rows.now.add ++ rows.now.remove ++ rows.now.update) result room.new }
{
    let Some(added) = see_rows(room, 0, rows.add.as_slice()) else {
        return None;
    };
    let Some(removed) = see_rows(room, added, rows.remove.as_slice()) else {
        return None;
    };
    see_rows(room, removed, rows.update.as_slice())
}

/// Whether all rows together have at most 32 distinct places.
pub fn has_few_places(rows: &GrantRows) -> bool
    ensures { IsTrue result ↔ (length (distinct_places (map (λ r. r.1)
        (rows.now.add ++ rows.now.remove ++ rows.now.update))) ≤ 32) }
{
    let none = Place {
        vim: no_name(),
        zone: no_name(),
    };
    let mut room = [none; PLACES_MAX];
    see_all(&mut room, rows).is_some()
}
