// The loading of a journal: its records are given in order, one at a time, in a single walk over the file, block by block.
ghost use Rattle.std.specs.Prelude.{◌≡◌, ◌≤◌, ◌<◌, ◌+◌, List, ℕ, true, false, IfOk, length, Result};
ghost use Rattle.site_traits.specs.Counts.{Ask, asked, DiskCause};
ghost use Rattle.site_traits.specs.Site.{KeepsJobs, Reads};
ghost use Rattle.journal_core.specs.Asking.{FailsWhere};
ghost use Rattle.journal_core.specs.Judged.{Judged, LongEnough, FrontIs};
ghost use Rattle.journal_core.specs.Load.{Loads, Opened, IsBegun, Finds, Grows, ledger_of, Loaded, SyncsAndReads, GivesOne};

use crate::header::{HeaderState, judge};
use crate::journal::{Journal, ROOM};
use crate::marks::{Mark, Marks};
use journal_records::{BLOCK, Head, Reader};
use site_traits::{DiskFailed, Site};
use std::alloc::{AllocError, Global};
use std::marker::{Model, PhantomData};

/// Why a journal could not be loaded. Each but `Disk` and `Memory` comes exactly where the file's bytes say so.
#[derive(Drop)]
pub enum LoadFault {
    /// The file is unfinished: at most one byte long, or beginning with `v`, or all of a made file but its first byte.
    Unmade,
    /// The file isn't unfinished, and differs first at this place, from 0, from the header of every journal.
    Foreign(u64),
    /// Behind an open gate stands no batch, or the file ends at the place of a gate; record n, from 1, would be the first
    /// of what should stand there.
    Broken(u64),
    /// A disk call failed.
    Disk,
    /// There is no memory.
    Memory,
}

impl From<DiskFailed> for LoadFault {
    ghost use Rattle.journal_core.specs.declared.loading.LoadFault.TheVariants.{Disk};

    ghost from_gives = { λ _ e. e ≡ Disk };

    fn from(_: DiskFailed) -> Self {
        LoadFault::Disk
    }
}

impl From<AllocError> for LoadFault {
    ghost use Rattle.journal_core.specs.declared.loading.LoadFault.TheVariants.{Memory};

    ghost from_gives = { λ _ e. e ≡ Memory };

    fn from(_: AllocError) -> Self {
        LoadFault::Memory
    }
}

/// What a step of a loading found.
#[derive(Clone, Copy)]
pub enum Found {
    /// One record more.
    Record,
    /// The closed gate behind the last record.
    End,
}

/// A journal that is being loaded. A caller judges each record as it is read, and goes on to the end, since a file that
/// is broken anywhere is no journal.
#[derive(Drop)]
pub struct Loading<S: Site> {
    manager: u32,
    count: u64,
    total: u64,
    len: u64,
    ended: bool,
    marks: Marks,
    reader: Reader,
    buffer: Vec<u8>,
    of: PhantomData<S>,
}

impl<S: Site> Model for Loading<S> {
    ghost use Rattle.std.specs.Prelude.{◌≡◌, ◌≤◌, ◌<◌, ◌+◌, ◌*◌, true, length};
    ghost use Rattle.journal_core.specs.Judged.{Judged, LongEnough, FrontIs};
    ghost use Rattle.journal_core.specs.Load.{Progress};
    ghost use Rattle.journal_core.specs.Marks.{AreUpTo};

    ghost Value = { Progress };

    ghost view = { λ l. record {
      manager = l.manager;
      count = l.count;
      end = l.reader.place + l.reader.left;
      total = l.total;
      len = l.len;
      record_bytes = l.reader.record_bytes;
      ended = l.ended;
      marks = l.marks.places;
      reading = l.reader;
    } };

    ghost invariant = { λ l. (length l.buffer.items ≡ 65545) × (l.reader.place + l.reader.left < 268435456)
        × (l.count * 5 ≤ l.reader.place) × (l.reader.left ≡ 0 → l.reader.place ≤ l.total)
        × (l.reader.place ≤ l.total + 5) × (l.total ≤ l.reader.place * 2) × (l.ended ≡ true → l.reader.left ≡ 0)
        × AreUpTo l.count l.marks.places };
}

impl<S: Site> Journal<S> {
    /// Begins to load the journal of a site's file. What was pending is on the disk first.
    ///
    /// Refusals, in this order: `Unmade`, `Foreign(place)`; `Disk`; `Memory`. `Broken` never comes here.
    /// Source: own format, docs/JOURNAL.md.
    pub fn open(alloc: Global, site: &mut S) -> Result<Loading<S>, LoadFault>
        ensures opened { S.tells → Opened result (S.state site.new) }
        ensures begun { IfOk result IsBegun }
        ensures told { S.tells → SyncsAndReads (S.state site.old) (S.state site.new) }
        ensures counts { FailsWhere (result ≡ Err LoadFault.Disk) (asked Ask.sync (S.counts site.old))
            (S.counts site.new) }
    {
        let (len, verdict) = front_of(site)?;
        match verdict {
            HeaderState::Unmade => Err(LoadFault::Unmade),
            HeaderState::Foreign(place) => Err(LoadFault::Foreign(place)),
            HeaderState::Made(manager) => {
                let buffer = vec![in alloc; 0; ROOM]?;
                let marks = Marks::new(alloc)?;
                let reader = Reader::new(alloc)?;
                Ok(Loading {
                    manager,
                    count: 0,
                    total: 32,
                    len,
                    ended: false,
                    marks,
                    reader,
                    buffer,
                    of: PhantomData,
                })
            }
        }
    }
}

impl<S: Site> Journal<S> {
    /// The journal of a site's file. What was pending is on the disk first. It reads each byte once, in blocks of 65,536
    /// bytes or as many as the batch at hand lacks where that is more.
    ///
    /// Refusals, in this order: `Unmade`, `Foreign(place)`, `Broken(n)`; `Disk`; `Memory`.
    /// Source: own format, docs/JOURNAL.md.
    pub fn load(alloc: Global, site: &mut S) -> Result<Journal<S>, LoadFault>
        ensures loaded { S.tells → Loaded result (S.state site.new) }
        ensures usable { IfOk result (λ j. j.closed ≡ false) }
        ensures told { S.tells → SyncsAndReads (S.state site.old) (S.state site.new) }
        ensures jobs { S.tells → KeepsJobs (S.state site.old) (S.state site.new) }
        ensures counts { FailsWhere (result ≡ Err LoadFault.Disk) (asked Ask.sync (S.counts site.old))
            (S.counts site.new) }
    {
        let mut loading = Journal::open(alloc, site)?;
        loop {
            match loading.next(site)? {
                Found::Record => {}
                Found::End => return Ok(loading.finish()),
            }
        }
    }
}

impl<S: Site> Loading<S> {
    /// The number of the manager whose journal it is.
    pub fn manager(&self) -> u32
        ensures { result ≡ self.now.manager }
    {
        self.manager
    }

    /// How many records were read.
    pub fn count(&self) -> u64
        ensures { result ≡ self.now.count }
    {
        self.count
    }

    /// Gives the next record, or finds the closed gate behind the last one. It makes at most two reads, and none where
    /// what it holds is enough. A batch is judged whole before its first record is given.
    ///
    /// Refusals, in this order: `Broken(n)`, with n one more than the records read; `Disk`. No other comes here.
    /// Source: own format, docs/JOURNAL.md.
    pub fn next(&mut self, site: &mut S) -> Result<Found, LoadFault>
        requires loads { S.tells → (rs : List (List ℕ)) × Loads rs self.old (S.state site.old) }

        ensures found { S.tells → (rs : List (List ℕ)) → Loads rs self.old (S.state site.old)
            → Finds rs result self.new (S.state site.new) }
        ensures grown { Grows result self.old self.new }
        ensures within { self.new.total < 536870912 }
        ensures told { S.tells → Reads (S.state site.old) (S.state site.new) }
        ensures counts { FailsWhere (result ≡ Err LoadFault.Disk) (S.counts site.old) (S.counts site.new) }
    {
        self.ended = false;
        if self.reader.is_in_batch() {
            self.give();
            return Ok(Found::Record);
        }
        let place = self.reader.place();
        match self.reader.enter(site, self.len, BLOCK)? {
            Head::Closed => {
                self.ended = true;
                Ok(Found::End)
            }
            Head::Broken => Err(LoadFault::Broken(self.count + 1)),
            Head::Open => {
                self.marks.keep(Mark {
                    before: self.count,
                    place,
                });
                self.give();
                Ok(Found::Record)
            }
        }
    }

    // Gives the next record of the batch at hand.
    fn give(&mut self)
        requires { 1 ≤ self.old.reading.left }
        ensures gives { GivesOne self.old self.new }
        ensures within { self.new.total < 536870912 }
    {
        let size = self.reader.give();
        self.count += 1;
        self.total += 9 + size as u64;
    }

    /// The bytes of the last record read.
    pub fn record_bytes(&self) -> &[u8]
        ensures { result.now ≡ self.now.record_bytes }
    {
        self.reader.record_bytes()
    }

    /// The journal, once the closed gate was found. It takes no memory.
    pub fn finish(mut self) -> Journal<S>
        requires { self.ended ≡ true }
        ensures ledger { result ≡ ledger_of self }
        ensures adds { result.end + result.saved ≡ self.total }
    {
        let end = self.reader.place();
        self.reader.stand_at(32);
        let saved = self.total - end;
        Journal::of(
            self.manager,
            self.count,
            end,
            saved,
            self.marks,
            self.reader,
            self.buffer,
        )
    }
}

// Syncs, and gives the length of the site's file and what it says of its header.
fn front_of<S: Site>(site: &mut S) -> Result<(u64, HeaderState), DiskFailed>
    ensures front { S.tells → IfOk result (λ front. FrontIs front.0 front.1 (S.state site.new)) }
    ensures enough { IfOk result (λ front. LongEnough front.0 front.1) }
    ensures told { S.tells → SyncsAndReads (S.state site.old) (S.state site.new) }
    ensures cause { DiskCause (asked Ask.sync (S.counts site.old)) (S.counts site.new) result }
{
    site.sync()?;
    let len = site.length()?;
    let verdict = header_at(site, len)?;
    Ok((len, verdict))
}

// What the site's file, which has `len` bytes, says of its header.
fn header_at<S: Site>(site: &mut S, len: u64) -> Result<HeaderState, DiskFailed>
    requires long { S.tells → len ≡ length (S.state site.old).image }
    ensures judged { S.tells → IfOk result (Judged (S.state site.old).image) }
    ensures enough { IfOk result (LongEnough len) }
    ensures told { S.tells → Reads (S.state site.old) (S.state site.new) }
    ensures cause { DiskCause (S.counts site.old) (S.counts site.new) result }
{
    let mut bytes = [0u8; 32];
    let held = if len < 32 { len as usize } else { 32 };
    site.read_at(0, &mut bytes[..held])?;
    Ok(judge(&bytes[..held]))
}
