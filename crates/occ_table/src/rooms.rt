//! Room for the names of a resource and of its place, or for that of a descriptor, laid aside for whatever they are.

ghost use Rattle.std.specs.Prelude.{◌≡◌, ◌≤◌, ◌<◌, ◌↔◌, IfSome, IsSome, IsTrue, OnOk, Some, vec_capacity};
ghost use Rattle.occ_table.specs.Packed.{room_in};

use crate::names::PackedName;
use std::alloc::{AllocError, Global};
use std::marker::Model;
use vnfm_base::Name;

/// Bytes of three of the longest names.
const LONGEST: usize = 765;

/// Room in four sizes, so that names take no more than they need and leave no holes in memory: a name is mostly a short
/// text or an identifier of 36 bytes.
///
/// A contract sees how many bytes there is room for at least.
#[derive(Drop)]
pub struct Rooms {
    short: Option<Vec<u8>>,
    middle: Option<Vec<u8>>,
    long: Option<Vec<u8>>,
    longest: Option<Vec<u8>>,
}

impl Model for Rooms {
    ghost use Rattle.std.specs.Prelude.{ℕ};
    ghost use Rattle.occ_table.specs.Packed.{room_in};

    ghost Value = { ℕ };

    ghost view = { λ r. room_in r.longest };
}

/// Whether there is room for so many bytes.
fn has_room(room: &Option<Vec<u8>>, wanted: usize) -> bool
    ensures { IsTrue result ↔ (wanted ≤ room_in room.now × IsSome room.now) }
{
    match room {
        Some(names) => names.capacity() >= wanted,
        None => false,
    }
}

/// The room, where it is for so many bytes.
fn take_from(room: &mut Option<Vec<u8>>, wanted: usize) -> Option<Vec<u8>>
    ensures fits { IfSome result (λ names. wanted ≤ vec_capacity names) }
    ensures found { wanted ≤ room_in room.old → 0 < room_in room.old → IsSome result }
{
    if has_room(room, wanted) {
        room.take()
    } else {
        None
    }
}

/// Lays room for so many bytes aside, where there is none.
fn fill(room: &mut Option<Vec<u8>>, alloc: Global, wanted: usize) -> Result<(), AllocError>
    ensures { OnOk result (wanted ≤ room_in room.new) }
{
    if !has_room(room, wanted) {
        let names = Vec::with_capacity(alloc, wanted)?;
        *room = Some(names);
    }
    Ok(())
}

impl Rooms {
    /// No room, and no memory is taken.
    pub fn new() -> Self
        ensures { result ≡ 0 }
    {
        Rooms {
            short: None,
            middle: None,
            long: None,
            longest: None,
        }
    }

    /// Lays room aside for whatever three names are.
    pub fn reserve(&mut self, alloc: Global) -> Result<(), AllocError>
        ensures { OnOk result (765 ≤ self.new) }
    {
        fill(&mut self.short, alloc, 40)?;
        fill(&mut self.middle, alloc, 104)?;
        fill(&mut self.long, alloc, 232)?;
        fill(&mut self.longest, alloc, LONGEST)
    }

    /// The least room for so many bytes.
    pub fn take(&mut self, wanted: usize) -> Option<Vec<u8>>
        requires { wanted ≤ 765 }
        ensures fits { IfSome result (λ names. wanted ≤ vec_capacity names) }
        ensures found { 765 ≤ self.old → IsSome result }
    {
        let short = take_from(&mut self.short, wanted);
        if short.is_some() {
            return short;
        }
        let middle = take_from(&mut self.middle, wanted);
        if middle.is_some() {
            return middle;
        }
        let long = take_from(&mut self.long, wanted);
        if long.is_some() {
            return long;
        }
        take_from(&mut self.longest, wanted)
    }

    /// A name in the least room that it fits into: no memory is taken.
    pub fn pack(&mut self, name: &Name) -> Option<PackedName>
        ensures { 765 ≤ self.old → result ≡ Some name.now }
    {
        match self.take(name.len()) {
            Some(room) => Some(PackedName::within(room, name)),
            None => None,
        }
    }
}
