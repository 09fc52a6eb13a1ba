// The journal of one manager. A closed gate stands behind the last record, on the disk before anything is written
// behind it.
ghost use Rattle.std.specs.Prelude.{◌≡◌, ◌≤◌, ◌<◌, ◌↔◌, ◌+◌, ◌-◌, ◌*◌, ℕ, List, [], ◌∷◌, All, IsTrue, true, false};
ghost use Rattle.std.specs.Prelude.{take, length, OnOk};
ghost use Rattle.site_traits.specs.Site.{KeepsJobs};
ghost use Rattle.journal_core.specs.Asking.{AppendAsks, FailsWhere};
ghost use Rattle.journal_records.specs.File.{piece};
ghost use Rattle.journal_records.specs.declared.limits.TheConstants.{MAX_RECORD};
ghost use Rattle.journal_records.specs.Reading.{standing_at};
ghost use Rattle.journal_core.specs.Journal.{Stands, Appends};
ghost use Rattle.journal_core.specs.Marks.{AreUpTo};
ghost use Rattle.journal_core.specs.Back.{ReadsBack, KeepsRecords, GoesBefore};
ghost use Rattle.journal_core.specs.Room.{Adds, HasRoom};

use crate::back::{BackFault, give_many};
use crate::marks::{Mark, Marks};
use crate::through::write_through;
use journal_records::{MAX_FILE, Reader};
use site_traits::{DiskFailed, Site};
use std::marker::{Model, PhantomData};

// Bytes of the first write of the largest append: two lengths, the record and a closed gate.
pub const ROOM: usize = 65_545;

/// The journal of one manager. It never owns the site of its file, which is lent to each call.
///
/// A contract sees whose it is, how many records it has, where its closed gate stands and whether it is closed.
pub struct Journal<S: Site> {
    manager: u32,
    count: u64,
    end: u64,
    saved: u64,
    closed: bool,
    marks: Marks,
    behind: u64,
    reader: Reader,
    buffer: Vec<u8>,
    of: PhantomData<S>,
}

impl<S: Site> Drop for Journal<S> {
    // Written out, so that the proof of a caller calls it and doesn't take the value apart at each of its ends.
    fn drop(self) {
        let Journal {
            manager: _,
            count: _,
            end: _,
            saved: _,
            closed: _,
            marks: _,
            behind: _,
            reader: _,
            buffer: _,
            of: _,
        } = self;
    }
}

impl<S: Site> Model for Journal<S> {
    ghost use Rattle.std.specs.Prelude.{◌≡◌, ◌≤◌, ◌<◌, ◌*◌, length};
    ghost use Rattle.journal_core.specs.Journal.{Ledger};
    ghost use Rattle.journal_core.specs.Marks.{AreUpTo};

    ghost Value = { Ledger };

    ghost view = { λ j. record {
      manager = j.manager;
      count = j.count;
      end = j.end;
      saved = j.saved;
      closed = j.closed;
      marks = j.marks.places;
      back = j.reader.record_bytes;
      behind = j.behind;
      reading = j.reader;
    } };

    ghost invariant = { λ j. (length j.buffer.items ≡ 65545) × (j.end < 268435456) × (j.count * 5 ≤ j.end)
        × (j.saved ≤ 268435456) × AreUpTo j.count j.marks.places };
}

/// Why a record could not be appended.
#[derive(Drop)]
pub enum AppendFault {
    /// Behind the closed gate at `end` the file has no room for `more` bytes of content. Nothing has changed.
    Full {
        /// The place of the closed gate.
        end: u64,
        /// The bytes that were to be appended.
        more: u32,
    },
    /// A disk call failed. The journal is closed: whether it has the record is known once it is loaded again.
    Disk,
}

impl From<DiskFailed> for AppendFault {
    ghost use Rattle.journal_core.specs.declared.journal.AppendFault.TheVariants.{Disk};

    ghost from_gives = { λ _ e. e ≡ Disk };

    fn from(_: DiskFailed) -> Self {
        AppendFault::Disk
    }
}

impl<S: Site> Journal<S> {
    /// The journal of so many records, whose closed gate stands at `end`, `saved` bytes nearer to the front than where
    /// each record has a batch of its own; with a reader, and a buffer.
    pub fn of(
        manager: u32,
        count: u64,
        end: u64,
        saved: u64,
        marks: Marks,
        reader: Reader,
        buffer: Vec<u8>,
    ) -> Journal<S>
        requires room { length buffer.items ≡ 65545 }
        requires small { end < 268435456 }
        requires few { count * 5 ≤ end }
        requires less { saved ≤ 268435456 }
        requires order { AreUpTo count marks.places }
        requires start { reader ≡ standing_at 32 }
        ensures { result ≡ record {
          manager = manager;
          count = count;
          end = end;
          saved = saved;
          closed = false;
          marks = marks.places;
          back = [];
          behind = 0;
          reading = standing_at 32;
        } }
    {
        Journal {
            manager,
            count,
            end,
            saved,
            closed: false,
            marks,
            behind: 0,
            reader,
            buffer,
            of: PhantomData,
        }
    }

    /// The number of the manager whose journal it is.
    pub fn manager(&self) -> u32
        ensures { result ≡ self.now.manager }
    {
        self.manager
    }

    /// How many records it has.
    pub fn count(&self) -> u64
        ensures value { result ≡ self.now.count }
        ensures small { self.now.count < 268435456 }
    {
        self.count
    }

    /// The place of its closed gate, in bytes.
    pub fn end(&self) -> u64
        ensures { result ≡ self.now.end }
    {
        self.end
    }

    /// How many bytes nearer to the front its closed gate stands than where each record has a batch of its own. It
    /// stays the same as long as the journal is open.
    pub fn saved(&self) -> u64
        ensures value { result ≡ self.now.saved }
        ensures small { self.now.saved ≤ 268435456 }
    {
        self.saved
    }

    /// Whether a batch of one record of `more` bytes and the closed gate behind it end at or before place `limit` of
    /// the file.
    pub fn fits(&self, more: usize, limit: u64) -> bool
        ensures { IsTrue result ↔ HasRoom self.now.end more limit }
    {
        limit >= self.end + 10 && more as u64 <= limit - (self.end + 10)
    }

    /// Adds a record of these bytes, in a batch of its own. It makes two writes and two syncs, reads nothing and takes no memory. It leaves
    /// the jobs alone.
    ///
    /// Refusals, in this order: `Full {end, more}` (bytes), after which nothing has changed; `Disk`.
    /// After `Disk`: the journal is closed; load it again.
    /// Source: own format, docs/JOURNAL.md.
    pub fn append(&mut self, site: &mut S, bytes: &[u8]) -> Result<(), AppendFault>
        requires some { 1 ≤ length bytes.now }
        requires fits { length bytes.now ≤ MAX_RECORD }
        requires usable { self.old.closed ≡ false }
        requires stands { S.tells → Stands (S.state site.old) self.old }

        ensures manager { self.new.manager ≡ self.old.manager }
        ensures grown { OnOk result ((self.new.count ≡ self.old.count + 1) × (Adds bytes.now self.old.end self.new.end)
            × (self.new.closed ≡ false)) }
        ensures saved { self.new.saved ≡ self.old.saved }
        ensures told { S.tells → Appends bytes.now result self.old self.new (S.state site.old) (S.state site.new) }
        ensures jobs { S.tells → KeepsJobs (S.state site.old) (S.state site.new) }
        ensures full { 268435456 < self.old.end + 10 + length bytes.now
            → result ≡ Err (AppendFault.Full self.old.end (length bytes.now)) }
        ensures only_full { (end more : ℕ) → result ≡ Err (AppendFault.Full end more)
            → (268435456 < self.old.end + 10 + length bytes.now) × (self.new ≡ self.old) × (site.new ≡ site.old) }
        ensures closed { result ≡ Err AppendFault.Disk → self.new.closed ≡ true }
        ensures asks { AppendAsks result (S.counts site.old) (S.counts site.new) }
    {
        if self.end + 10 + bytes.len() as u64 > MAX_FILE {
            return Err(AppendFault::Full {
                end: self.end,
                more: bytes.len() as u32,
            });
        }
        self.behind = 0;
        self.reader.stand_at(32);
        let total = frame(&mut self.buffer, bytes);
        self.closed = true;
        write_through(site, self.end + 1, &self.buffer[..total])?;
        write_through(site, self.end, &[1])?;
        self.closed = false;
        self.marks.keep(Mark {
            before: self.count,
            place: self.end,
        });
        self.end += total as u64;
        self.count += 1;
        Ok(())
    }
}

impl<S: Site> Journal<S> {
    /// Reads record n, from 1, back: `record_back` then gives its bytes. It reads on from the record that was read back
    /// last, or from the nearest place before record n that the journal keeps, whichever is nearer: at most two reads
    /// for each batch that it comes to, and none for a record that the reader holds. It takes no memory.
    ///
    /// Refusals: `Disk`; `Broken(n)`, which never comes where the site tells its content.
    /// After `Disk`: the journal is closed; load it again.
    /// Source: own format, docs/JOURNAL.md.
    pub fn read_back(&mut self, site: &mut S, n: u64) -> Result<(), BackFault>
        requires some { 1 ≤ n }
        requires within { n ≤ self.old.count }
        requires usable { self.old.closed ≡ false }
        requires stands { S.tells → Stands (S.state site.old) self.old }

        ensures told { S.tells → ReadsBack n result self.new (S.state site.old) (S.state site.new) }
        ensures jobs { S.tells → KeepsJobs (S.state site.old) (S.state site.new) }
        ensures kept { KeepsRecords self.old self.new }
        ensures open { OnOk result (self.new.closed ≡ false) }
        ensures broken { (k : ℕ) → result ≡ Err (BackFault.Broken k) → (k ≡ n) × (self.new.closed ≡ false) }
        ensures closed { result ≡ Err BackFault.Disk → self.new.closed ≡ true }
        ensures counts { FailsWhere (result ≡ Err BackFault.Disk) (S.counts site.old) (S.counts site.new) }
    {
        self.go_before(n);
        self.closed = true;
        let found = give_many(&mut self.reader, site, self.end, n - self.behind)?;
        self.closed = false;
        if !found {
            return Err(BackFault::Broken(n));
        }
        self.behind = n;
        Ok(())
    }

    /// The bytes of the record that was read back last; none before one was, and none after an append.
    pub fn record_back(&self) -> &[u8]
        ensures { result.now ≡ self.now.back }
    {
        self.reader.record_bytes()
    }

    // Stands behind a record before record n: where it stands, or at the nearest place that the journal keeps.
    fn go_before(&mut self, n: u64)
        requires some { 1 ≤ n }
        ensures goes { GoesBefore n self.old self.new }
    {
        let kept = self.marks.near(n);
        if kept.before <= self.behind && self.behind < n {
            return;
        }
        self.behind = kept.before;
        self.reader.stand_at(kept.place);
    }
}

// Puts what is written behind a closed gate to the front of the buffer, and gives the number of its bytes.
fn frame(buffer: &mut [u8], bytes: &[u8]) -> usize
    requires room { length bytes.now + 9 ≤ length buffer.old }
    requires fits { length bytes.now ≤ MAX_RECORD }
    ensures total { result ≡ length bytes.now + 9 }
    ensures framed { take result buffer.new ≡ piece bytes.now }
{
    let n = bytes.len();
    buffer[..4].copy_from_slice(&(n as u32 + 4).to_be_bytes());
    buffer[4..8].copy_from_slice(&(n as u32).to_be_bytes());
    buffer[8..n + 8].copy_from_slice(bytes);
    buffer[n + 8] = 0;
    n + 9
}
