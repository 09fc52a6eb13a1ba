//! The open attempts of an occurrence, and the room for as many as may be open at once.

ghost use Rattle.std.specs.Prelude.{◌≡◌, ◌≤◌, ◌<◌, ◌&&◌, [], filter, length, map, not, vec_capacity, vec_len, IfOk};
ghost use Rattle.std.specs.List.{list_any};
ghost use Rattle.lcm_events.specs.Same.{same_tag};
ghost use Rattle.occ_table.specs.Steps.{begun, ended, failed_by, has_failed_among, has_open_among, has_open_at};
ghost use Rattle.occ_table.specs.Steps.{none_open};

use lcm_events::Tag;
use std::alloc::{AllocError, Global};
use std::marker::Model;
use std::mem;

/// Open attempts for which a row has room: the widest window.
const ROOM: usize = 4;

/// An open attempt.
#[derive(Clone, Copy)]
pub struct Pending {
    /// Its tag.
    pub tag: Tag,
    /// Whether the call that was to begin it has failed.
    pub failed: bool,
}

impl Pending {
    /// The call for this tag has failed.
    fn fail(&mut self, tag: &Tag)
        ensures { self.new ≡ failed_by tag.now self.old }
    {
        self.failed = self.tag == *tag || self.failed;
    }

    /// Whether it has this tag, and the call that was to begin it has failed.
    fn is_failed(&self, tag: &Tag) -> bool
        ensures { result ≡ (same_tag tag.now self.now.tag && self.now.failed) }
    {
        *tag == self.tag && self.failed
    }
}

/// Room for the open attempts of an occurrence, which lies beside them while none is open.
///
/// A contract sees for how many attempts there is room.
#[derive(Drop)]
pub struct AttemptRoom {
    entries: Vec<Pending>,
}

impl Model for AttemptRoom {
    ghost use Rattle.std.specs.Prelude.{ℕ, vec_capacity};

    ghost Value = { ℕ };

    ghost view = { λ r. vec_capacity r.entries };
}

impl AttemptRoom {
    /// Room for 4 open attempts.
    pub(crate) fn new(alloc: Global) -> Result<Self, AllocError>
        ensures { IfOk result (λ room. 4 ≤ room) }
    {
        let entries = Vec::with_capacity(alloc, ROOM)?;
        Ok(AttemptRoom { entries })
    }

    /// Gives the memory back.
    pub(crate) fn give_back(&mut self)
        ensures { self.new ≡ 0 }
    {
        self.entries.clear();
        self.entries.shrink_to_fit();
    }
}

/// Open attempts in the order in which they began. Where one is open, there is room for 4; where none is, no memory is
/// held.
#[derive(Drop)]
pub struct Pendings {
    entries: Vec<Pending>,
}

impl Model for Pendings {
    ghost use Rattle.std.specs.Prelude.{List, ◌≡◌, ◌≤◌, ◌<◌, length, vec_capacity};
    ghost use Rattle.occ_table.specs.declared.pending.Pending.{Pending};

    ghost Value = { List Pending };

    ghost view = { λ p. p.entries.items };

    ghost invariant = { λ p. (0 < length p.entries.items → 4 ≤ vec_capacity p.entries)
        × (length p.entries.items ≡ 0 → vec_capacity p.entries ≡ 0) };
}

/// Marks the attempt whose call failed.
fn fail_in(entries: &mut [Pending], tag: &Tag)
    ensures { entries.new ≡ map (failed_by tag.now) entries.old }
{
    for pending in entries.iter_mut() {
        pending.fail(tag);
    }
}

/// Whether this attempt is among these, and the call that was to begin it has failed.
fn is_failed_in(entries: &[Pending], tag: &Tag) -> bool
    ensures { result ≡ has_failed_among tag.now entries.now }
{
    for pending in entries {
        if pending.is_failed(tag) {
            return true;
        }
    }
    false
}

/// Whether this attempt is among these.
fn is_open_in(entries: &[Pending], tag: &Tag) -> bool
    ensures { result ≡ has_open_among tag.now entries.now }
{
    for pending in entries {
        if *tag == pending.tag {
            return true;
        }
    }
    false
}

/// Whether an attempt at this change is among these.
fn has_open_in(entries: &[Pending], change: u16) -> bool
    ensures { result ≡ has_open_at change entries.now }
{
    for pending in entries {
        if pending.tag.change == change {
            return true;
        }
    }
    false
}

/// Takes the attempt out that ended.
fn end_in(entries: &mut Vec<Pending>, tag: &Tag)
    ensures items { entries.new.items ≡ ended tag.now entries.old.items }
    ensures capacity { vec_capacity entries.new ≡ vec_capacity entries.old }
{
    entries.retain(|pending| !(pending.tag == *tag));
}

/// An attempt begins, where there is room for 4. Nothing happens where four are open.
fn begin_in(entries: &mut Vec<Pending>, tag: Tag)
    requires { 4 ≤ vec_capacity entries.old }
    ensures items { entries.new.items ≡ begun tag entries.old.items }
    ensures capacity { vec_capacity entries.new ≡ vec_capacity entries.old }
{
    if entries.len() < ROOM {
        entries.push_reserved(Pending { tag, failed: false });
    }
}

/// Swaps the memory of open attempts, none of which is open any more, with the room beside.
fn swap_room(entries: &mut Vec<Pending>, room: &mut Vec<Pending>)
    ensures none { entries.new.items ≡ [] }
    ensures room { vec_capacity entries.new ≡ vec_capacity room.old }
    ensures left { vec_capacity room.new ≡ vec_capacity entries.old }
{
    mem::swap(entries, room);
    entries.clear();
}

impl Pendings {
    /// No open attempt, which takes no memory.
    pub fn none(alloc: Global) -> Self
        ensures { result ≡ [] }
    {
        Pendings {
            entries: Vec::new(alloc),
        }
    }

    /// Equal open attempts, with room for 4 more where one is open.
    pub fn copy(&self, alloc: Global) -> Result<Self, AllocError>
        ensures { IfOk result (λ p. p ≡ self.now) }
    {
        if self.entries.is_empty() {
            return Ok(Pendings::none(alloc));
        }
        let mut entries = self.entries.as_slice().to_vec(alloc)?;
        entries.reserve(ROOM)?;
        Ok(Pendings { entries })
    }

    /// The open attempts in the order in which they began.
    pub fn as_slice(&self) -> &[Pending]
        ensures { result.now ≡ self.now }
    {
        self.entries.as_slice()
    }

    /// An attempt begins, the first in the room beside. Nothing happens where four are open.
    pub(crate) fn begin(&mut self, tag: Tag, room: &mut AttemptRoom)
        requires { length self.old ≡ 0 → 4 ≤ room.old }
        ensures { self.new ≡ begun tag self.old }
    {
        if self.entries.is_empty() {
            swap_room(&mut self.entries, &mut room.entries);
        }
        begin_in(&mut self.entries, tag);
    }

    /// The call that was to begin an attempt has failed.
    pub fn fail(&mut self, tag: &Tag)
        ensures { self.new ≡ map (failed_by tag.now) self.old }
    {
        fail_in(self.entries.as_mut_slice(), tag);
    }

    /// An attempt ended. The last leaves its room beside.
    pub(crate) fn end(&mut self, tag: &Tag, room: &mut AttemptRoom)
        ensures pending { self.new ≡ ended tag.now self.old }
        ensures room { (length self.old ≡ 0 → 4 ≤ room.old) → length self.new ≡ 0 → 4 ≤ room.new }
    {
        if self.entries.is_empty() {
            return;
        }
        end_in(&mut self.entries, tag);
        if self.entries.is_empty() {
            swap_room(&mut self.entries, &mut room.entries);
            self.entries.shrink_to_fit();
        }
    }

    /// Whether no attempt is open.
    pub fn is_empty(&self) -> bool
        ensures { result ≡ none_open self.now }
    {
        self.entries.is_empty()
    }

    /// How many attempts are open.
    pub fn len(&self) -> usize
        ensures { result ≡ length self.now }
    {
        self.entries.len()
    }

    /// Whether an attempt at this change is open.
    pub fn has_open_at(&self, change: u16) -> bool
        ensures { result ≡ has_open_at change self.now }
    {
        has_open_in(self.entries.as_slice(), change)
    }

    /// Whether the attempt is open.
    pub fn has_open(&self, tag: &Tag) -> bool
        ensures { result ≡ has_open_among tag.now self.now }
    {
        is_open_in(self.entries.as_slice(), tag)
    }

    /// Whether the attempt is open, and the call that was to begin it has failed.
    pub fn has_failed(&self, tag: &Tag) -> bool
        ensures { result ≡ has_failed_among tag.now self.now }
    {
        is_failed_in(self.entries.as_slice(), tag)
    }

    /// Whether the attempt is open, and the call that was to begin it has not failed.
    pub fn is_waiting(&self, tag: &Tag) -> bool
        ensures { result ≡ (has_open_among tag.now self.now && not (has_failed_among tag.now self.now)) }
    {
        let open = self.has_open(tag);
        let failed = self.has_failed(tag);
        open && !failed
    }
}
