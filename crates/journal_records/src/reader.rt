// The records of a file, read block by block.
ghost use Rattle.std.specs.Prelude.{◌≡◌, ◌≤◌, ◌<◌, ◌+◌, ◌-◌, ℕ, List, IfOk, IsTrue, length, take, drop};
ghost use Rattle.std.specs.Prelude.{◌↔◌, ◌⊎◌, [], OnErr, OnOk, MatchOption};
ghost use Rattle.site_traits.specs.Counts.{DiskCause};
ghost use Rattle.site_traits.specs.Site.{Reads};
ghost use Rattle.journal_records.specs.Head.{EndsWithin};
ghost use Rattle.journal_records.specs.Reading.{Reading, standing_at, part, AreAhead, BeginWithHead, BeginWithNoHead, HeadIs, Enters, Gives};

use crate::content::{are_records, number_of};
use crate::limits::{MAX_BATCH, MAX_FILE};
use crate::window::Window;
use site_traits::{DiskFailed, Site};
use std::alloc::{AllocError, Global};
use std::marker::Model;

/// What stands at the place of a gate.
#[derive(Clone, Copy)]
pub enum Head {
    /// A closed gate.
    Closed,
    /// An open gate, and behind it a batch.
    Open,
    /// The end of the file, or an open gate with no batch behind it.
    Broken,
}

/// Reads the records of a file in order, block by block, and holds the batch at hand. It doesn't own the site of the
/// file, which is lent to each call.
///
/// A contract sees the place of what is read next, how many bytes of the batch at hand are left, the bytes that are
/// held, and the record that was given last.
#[derive(Drop)]
pub struct Reader {
    window: Window,
    place: u64,
    left: usize,
    size: usize,
}

impl Model for Reader {
    ghost use Rattle.std.specs.Prelude.{◌≡◌, ◌≤◌, ◌<◌, ◌+◌, ◌-◌, length, take, drop};
    ghost use Rattle.journal_records.specs.Reading.{Reading, AreRecords};
    ghost use Rattle.journal_records.specs.declared.limits.TheConstants.{MAX_RECORD};

    ghost Value = { Reading };

    ghost view = { λ r. record {
      place = r.place;
      left = r.left;
      ahead = r.window.ahead;
      record_bytes = drop (length r.window.passed - r.size) r.window.passed;
    } };

    ghost invariant = { λ r. (r.left ≤ length r.window.ahead) × (r.size ≤ length r.window.passed)
        × (r.place + r.left < 268435456) × AreRecords (take r.left r.window.ahead) };
}

impl Reader {
    /// A reader that stands at the first gate.
    pub fn new(alloc: Global) -> Result<Reader, AllocError>
        ensures { IfOk result (λ r. r ≡ standing_at 32) }
    {
        let window = Window::new(alloc)?;
        Ok(Reader {
            window,
            place: 32,
            left: 0,
            size: 0,
        })
    }

    /// Goes to the gate at this place, and holds nothing.
    pub fn stand_at(&mut self, place: u64)
        requires { place < 268435456 }
        ensures { self.new ≡ standing_at place }
    {
        self.window.clear();
        self.place = place;
        self.left = 0;
        self.size = 0;
    }

    /// Whether records of the batch at hand are left.
    pub fn is_in_batch(&self) -> bool
        ensures { IsTrue result ↔ (1 ≤ self.now.left) }
    {
        self.left > 0
    }

    /// The place of what is read next.
    pub fn place(&self) -> u64
        ensures value { result ≡ self.now.place }
        ensures small { self.now.place + self.now.left < 268435456 }
    {
        self.place
    }

    /// Finds what stands at the gate, in a file that is read up to place `end`. Where that is a batch, it is held whole
    /// then, and its records are given by `give`. It reads `block` bytes at once, or as many as the batch lacks where
    /// that is more, and only where what is held isn't enough.
    ///
    /// After `DiskFailed` it stands where it did.
    pub fn enter<S: Site>(
        &mut self,
        site: &mut S,
        end: u64,
        block: usize,
    ) -> Result<Head, DiskFailed>
        requires between { self.old.left ≡ 0 }
        requires block { block ≤ 65536 }
        requires ahead { S.tells → AreAhead self.old.place self.old.ahead end (S.state site.old).image }

        ensures head { S.tells → IfOk result (λ h. HeadIs self.old.place (part self.old.place end (S.state site.old).image)
            h self.new) }
        ensures entered { IfOk result (λ h. Enters end h self.old self.new) }
        ensures kept { OnErr result ((self.new.place ≡ self.old.place) × (self.new.left ≡ 0)) }
        ensures ahead { S.tells → AreAhead self.new.place self.new.ahead end (S.state site.old).image }
        ensures told { S.tells → Reads (S.state site.old) (S.state site.new) }
        ensures cause { DiskCause (S.counts site.old) (S.counts site.new) result }
    {
        self.size = 0;
        fill(&mut self.window, site, self.place, 5, end, block)?;
        if self.window.len() == 0 {
            return Ok(Head::Broken);
        }
        if self.window.as_slice()[0] != 1 {
            return Ok(Head::Closed);
        }
        let Some(size) = batch_size(self.window.as_slice(), self.place, end) else {
            return Ok(Head::Broken);
        };
        fill(&mut self.window, site, self.place, 5 + size, end, block)?;
        if !are_records(&self.window.as_slice()[5..5 + size]) {
            return Ok(Head::Broken);
        }
        self.window.pass(5);
        self.place += 5;
        self.left = size;
        Ok(Head::Open)
    }

    /// Gives the next record of the batch at hand, and the number of its bytes: `record_bytes` are these then. It reads
    /// nothing.
    pub fn give(&mut self) -> usize
        requires { 1 ≤ self.old.left }
        ensures given { Gives self.old self.new }
        ensures size { result ≡ length self.new.record_bytes }
    {
        let size = number_of(self.window.as_slice()) as usize;
        self.window.pass(4 + size);
        self.place += 4 + size as u64;
        self.left -= 4 + size;
        self.size = size;
        size
    }

    /// The bytes of the record that was given last; none where the reader stands at a gate that it went to or found.
    pub fn record_bytes(&self) -> &[u8]
        ensures { result.now ≡ self.now.record_bytes }
    {
        self.window.last_passed(self.size)
    }
}

// Holds so many bytes of the file from this place on, or all up to `end` where these are fewer.
fn fill<S: Site>(
    window: &mut Window,
    site: &mut S,
    place: u64,
    need: usize,
    end: u64,
    block: usize,
) -> Result<(), DiskFailed>
    requires small { place < 268435456 }
    requires need { need ≤ 131077 }
    requires block { block ≤ 65536 }
    requires ahead { S.tells → AreAhead place window.old.ahead end (S.state site.old).image }
    ensures enough { length window.new.ahead < need → OnOk result (end ≤ place + length window.new.ahead) }
    ensures more { length window.old.ahead ≤ length window.new.ahead }
    ensures ahead { S.tells → AreAhead place window.new.ahead end (S.state site.old).image }
    ensures told { S.tells → Reads (S.state site.old) (S.state site.new) }
    ensures cause { DiskCause (S.counts site.old) (S.counts site.new) result }
{
    let held = window.len();
    let behind = place + held as u64;
    if held >= need || behind >= end {
        return Ok(());
    }
    let more = most_of(need - held, block, end - behind);
    window.grow(site, behind, more)
}

// How many bytes are read: what is lacking, or a block where that is more, and no more than there are.
fn most_of(lacking: usize, block: usize, there: u64) -> usize
    ensures enough { result < lacking → there ≡ result }
    ensures there { result ≤ there }
    ensures few { result ≤ lacking ⊎ result ≤ block }
{
    let wanted = if lacking < block { block } else { lacking };
    if there < wanted as u64 {
        there as usize
    } else {
        wanted
    }
}

// The number of bytes of the content of the batch whose head these bytes begin with, at this place of a file that ends at
// `end`.
fn batch_size(bytes: &[u8], place: u64, end: u64) -> Option<usize>
    requires { place < 268435456 }
    ensures { MatchOption result (BeginWithNoHead bytes.now place end) (BeginWithHead bytes.now place end) }
{
    if bytes.len() < 5 {
        return None;
    }
    let size = number_of(&bytes[1..]);
    if ends_within(place, end, size) {
        Some(size as usize)
    } else {
        None
    }
}

// Whether a content of so many bytes, of a batch at this place, ends within a file that ends at `end`.
fn ends_within(place: u64, end: u64, size: u32) -> bool
    requires { place < 268435456 }
    ensures { IsTrue result ↔ EndsWithin place end size }
{
    let behind = place + 5 + size as u64;
    1 <= size && size as usize <= MAX_BATCH && behind <= end && behind < MAX_FILE
}
