// A record of calls, each with its bytes, for the objects in memory. All its room is taken when it is made.
ghost use Rattle.std.specs.Prelude.{◌≡◌, ◌≤◌, ◌<◌, ◌+◌, ◌↔◌, ◌++◌, get_or, [], List, ℕ, IsTrue, IfOk, false, length};
ghost use Rattle.std.specs.Prelude.{vec_capacity};
ghost use Rattle.site_traits.specs.Log.{HasRoom, with_call, empty};

use std::alloc::{AllocError, Global};
use std::marker::Model;

/// How many calls an object in memory records.
pub const CALLS: usize = 1_048_576;

/// How many bytes an object in memory records.
pub const BYTES: usize = 67_108_864;

/// A call on record: what it was, and where its bytes stand.
#[derive(Clone, Copy)]
pub struct Entry<T> {
    /// What it was.
    pub what: T,
    /// The place of its first byte.
    pub from: usize,
    /// The number of its bytes.
    pub len: usize,
}

/// A record of calls, the oldest first. A contract sees each call with its bytes, and the room.
#[derive(Drop)]
pub struct Log<T: Copy + Drop> {
    entries: Vec<Entry<T>>,
    bytes: Vec<u8>,
    most_calls: usize,
    most_bytes: usize,
}

impl<T: Copy + Drop> Model for Log<T> {
    ghost use Rattle.std.specs.Prelude.{map, ◌≤◌, vec_capacity};
    ghost use Rattle.site_traits.specs.Log.{entry_of, Recorded, IsKept};

    ghost Value = { Recorded T };

    ghost view = { λ l. record {
      calls = map (entry_of l.bytes.items) l.entries.items;
      most_calls = l.most_calls;
      most_bytes = l.most_bytes;
    } };

    ghost invariant = { λ l. IsKept l.bytes.items l.entries.items × (l.most_calls ≤ vec_capacity l.entries)
        × (l.most_bytes ≤ vec_capacity l.bytes) };
}

impl<T: Copy + Drop> Log<T> {
    /// No call, with room for so many calls and so many bytes.
    pub fn new(alloc: Global, calls: usize, bytes: usize) -> Result<Log<T>, AllocError>
        ensures { IfOk result (λ l. l ≡ empty calls bytes) }
    {
        Ok(Log {
            entries: Vec::with_capacity(alloc, calls)?,
            bytes: Vec::with_capacity(alloc, bytes)?,
            most_calls: calls,
            most_bytes: bytes,
        })
    }

    /// How many calls are on record.
    pub fn len(&self) -> usize
        ensures { result ≡ length self.now.calls }
    {
        self.entries.len()
    }

    /// What call number k was, from 0.
    pub fn what(&self, k: usize) -> T
        requires { k < length self.now.calls }
        ensures { result ≡ (get_or self.now.calls k (result, [])).0 }
    {
        self.entries[k].what
    }

    /// The bytes of call number k, from 0.
    pub fn bytes_of(&self, k: usize) -> &[u8]
        requires { k < length self.now.calls }
        ensures { (what : T) → result.now ≡ (get_or self.now.calls k (what, [])).1 }
    {
        let entry = self.entries[k];
        &self.bytes[entry.from..entry.from + entry.len]
    }

    /// Puts a call with these bytes, first and second, on record where there is room for it; else nothing changes.
    pub fn push(&mut self, what: T, first: &[u8], second: &[u8]) -> bool
        ensures room { IsTrue result ↔ HasRoom (length first.now + length second.now) self.old }
        ensures put { IsTrue result → self.new ≡ with_call what (first.now ++ second.now) self.old }
        ensures kept { result ≡ false → self.new ≡ self.old }
    {
        if self.entries.len() >= self.most_calls {
            return false;
        }
        let from = self.bytes.len();
        if !put_both(&mut self.bytes, self.most_bytes, first, second) {
            return false;
        }
        let len = self.bytes.len() - from;
        self.entries.push_reserved(Entry { what, from, len });
        true
    }
}

// Puts these bytes, first and second, behind those that are there, where there is room for them within so many.
fn put_both(bytes: &mut Vec<u8>, most: usize, first: &[u8], second: &[u8]) -> bool
    requires { most ≤ vec_capacity bytes.old }
    ensures room { IsTrue result ↔ (length bytes.old.items + (length first.now + length second.now) ≤ most) }
    ensures put { IsTrue result → bytes.new.items ≡ bytes.old.items ++ (first.now ++ second.now) }
    ensures kept { result ≡ false → bytes.new.items ≡ bytes.old.items }
    ensures capacity { vec_capacity bytes.old ≤ vec_capacity bytes.new }
{
    let Some(room) = most.checked_sub(bytes.len()) else {
        return false;
    };
    if first.len() > room || second.len() > room - first.len() {
        return false;
    }
    if bytes.extend_from_slice(first).is_err() {
        unreachable!();
    }
    if bytes.extend_from_slice(second).is_err() {
        unreachable!();
    }
    true
}
