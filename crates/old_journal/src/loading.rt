// The loading of a journal of format 1: its records are read in order, one at a time, in a single walk over the file.
ghost use Rattle.std.specs.Prelude.{◌≡◌, ◌≤◌, ◌<◌, ◌+◌, List, ℕ, true, false, IfOk, length, Result};
ghost use Rattle.site_traits.specs.Counts.{Ask, asked, DiskCause};
ghost use Rattle.site_traits.specs.Site.{KeepsJobs, Reads};
ghost use Rattle.journal_core.specs.Asking.{FailsWhere};
ghost use Rattle.old_journal.specs.Judged.{Judged, LongEnough, FrontIs};
ghost use Rattle.old_journal.specs.Load.{Loads, Opened, IsBegun, Finds, Grows, ledger_of, Loaded};
ghost use Rattle.journal_core.specs.Load.{SyncsAndReads};

use crate::bytes::bytes_at;
use crate::head::{Head, head_at};
use crate::header::{HeaderState, judge};
use crate::journal::OldJournal;
use crate::marks::{Mark, Marks};
use journal_core::{Found, LoadFault};
use journal_records::MAX_RECORD;
use site_traits::{DiskFailed, Site};
use std::alloc::Global;
use std::marker::{Model, PhantomData};

/// A journal of format 1 that is being loaded. A caller judges each record as it is read, and goes on to the end, since
/// a file that is broken anywhere is no journal.
#[derive(Drop)]
pub struct OldLoading<S: Site> {
    manager: u32,
    count: u64,
    end: u64,
    len: u64,
    size: usize,
    ended: bool,
    marks: Marks,
    buffer: Vec<u8>,
    of: PhantomData<S>,
}

impl<S: Site> Model for OldLoading<S> {
    ghost use Rattle.std.specs.Prelude.{◌≡◌, ◌≤◌, ◌<◌, ◌*◌, take, length};
    ghost use Rattle.old_journal.specs.Judged.{Judged, LongEnough, FrontIs};
    ghost use Rattle.old_journal.specs.Load.{Progress};
    ghost use Rattle.journal_records.specs.declared.limits.TheConstants.{MAX_RECORD};

    ghost Value = { Progress };

    ghost view = { λ l. record {
      manager = l.manager;
      count = l.count;
      end = l.end;
      len = l.len;
      record_bytes =
          take l.size l.buffer.items;
      ended = l.ended;
      marks = l.marks.places;
    } };

    ghost invariant = { λ l. (length l.buffer.items ≡ 65536) × (l.end < 268435456) × (l.count * 6 ≤ l.end)
        × (l.end ≤ l.len) × (l.size ≤ MAX_RECORD) × (l.marks.seen ≡ l.count) };
}

impl<S: Site> OldJournal<S> {
    /// Begins to load the journal of a site's file of format 1. What was pending is on the disk first.
    ///
    /// Refusals, in this order: `Unmade`, `Foreign(place)`; `Disk`; `Memory`. `Broken` never comes here.
    /// Source: own format, docs/JOURNAL.md.
    pub fn open(alloc: Global, site: &mut S) -> Result<OldLoading<S>, LoadFault>
        ensures opened { S.tells → Opened result (S.state site.new) }
        ensures begun { IfOk result IsBegun }
        ensures told { S.tells → SyncsAndReads (S.state site.old) (S.state site.new) }
        ensures counts { FailsWhere (result ≡ Err LoadFault.Disk) (asked Ask.sync (S.counts site.old))
            (S.counts site.new) }
    {
        let (len, verdict) = front_of(site)?;
        match verdict {
            HeaderState::Unmade => Err(LoadFault::Unmade),
            HeaderState::Foreign(place) => Err(LoadFault::Foreign(place)),
            HeaderState::Made(manager) => {
                let buffer = vec![in alloc; 0; MAX_RECORD]?;
                let marks = Marks::new(alloc)?;
                Ok(OldLoading {
                    manager,
                    count: 0,
                    end: 32,
                    len,
                    size: 0,
                    ended: false,
                    marks,
                    buffer,
                    of: PhantomData,
                })
            }
        }
    }
}

impl<S: Site> OldJournal<S> {
    /// The journal of a site's file of format 1. What was pending is on the disk first. It reads each record once, and
    /// holds one at a time.
    ///
    /// Refusals, in this order: `Unmade`, `Foreign(place)`, `Broken(n)`; `Disk`; `Memory`.
    /// Source: own format, docs/JOURNAL.md.
    pub fn load(alloc: Global, site: &mut S) -> Result<OldJournal<S>, LoadFault>
        ensures loaded { S.tells → Loaded result (S.state site.new) }
        ensures usable { IfOk result (λ j. j.closed ≡ false) }
        ensures told { S.tells → SyncsAndReads (S.state site.old) (S.state site.new) }
        ensures jobs { S.tells → KeepsJobs (S.state site.old) (S.state site.new) }
        ensures counts { FailsWhere (result ≡ Err LoadFault.Disk) (asked Ask.sync (S.counts site.old))
            (S.counts site.new) }
    {
        let mut loading = OldJournal::open(alloc, site)?;
        loop {
            match loading.next(site)? {
                Found::Record => {}
                Found::End => return Ok(loading.finish()),
            }
        }
    }
}

impl<S: Site> OldLoading<S> {
    /// The number of the manager whose journal it is.
    pub fn manager(&self) -> u32
        ensures { result ≡ self.now.manager }
    {
        self.manager
    }

    /// How many records were read.
    pub fn count(&self) -> u64
        ensures { result ≡ self.now.count }
    {
        self.count
    }

    /// Reads the next record, or finds the closed gate behind the last one. It makes one read of at most five bytes,
    /// and one of the record's.
    ///
    /// Refusals, in this order: `Broken(n)`, with n one more than the records read, where no record stands behind the
    /// open gate or the file ends at the place of the gate; `Disk`. No other comes here.
    /// Source: own format, docs/JOURNAL.md.
    pub fn next(&mut self, site: &mut S) -> Result<Found, LoadFault>
        requires loads { S.tells → (rs : List (List ℕ)) × Loads rs self.old (S.state site.old) }

        ensures found { S.tells → (rs : List (List ℕ)) → Loads rs self.old (S.state site.old)
            → Finds rs result self.new (S.state site.new) }
        ensures grown { Grows result self.old self.new }
        ensures within { self.new.end < 268435456 }
        ensures told { S.tells → Reads (S.state site.old) (S.state site.new) }
        ensures counts { FailsWhere (result ≡ Err LoadFault.Disk) (S.counts site.old) (S.counts site.new) }
    {
        match head_at(site, self.end, self.len)? {
            Head::Closed => {
                self.ended = true;
                Ok(Found::End)
            }
            Head::Broken => Err(LoadFault::Broken(self.count + 1)),
            Head::Open(size) => {
                bytes_at(site, self.end + 5, size as usize, &mut self.buffer)?;
                self.marks.keep(Mark {
                    before: self.count,
                    place: self.end,
                });
                self.size = size as usize;
                self.end += 5 + size as u64;
                self.count += 1;
                self.ended = false;
                Ok(Found::Record)
            }
        }
    }

    /// The bytes of the last record read.
    pub fn record_bytes(&self) -> &[u8]
        ensures { result.now ≡ self.now.record_bytes }
    {
        &self.buffer[..self.size]
    }

    /// The journal, once the closed gate was found. It takes no memory.
    pub fn finish(self) -> OldJournal<S>
        requires { self.ended ≡ true }
        ensures { result ≡ ledger_of self }
    {
        OldJournal::of(self.manager, self.count, self.end, self.buffer, self.marks)
    }
}

// Syncs, and gives the length of the site's file and what it says of its header.
fn front_of<S: Site>(site: &mut S) -> Result<(u64, HeaderState), DiskFailed>
    ensures front { S.tells → IfOk result (λ front. FrontIs front.0 front.1 (S.state site.new)) }
    ensures enough { IfOk result (λ front. LongEnough front.0 front.1) }
    ensures told { S.tells → SyncsAndReads (S.state site.old) (S.state site.new) }
    ensures cause { DiskCause (asked Ask.sync (S.counts site.old)) (S.counts site.new) result }
{
    site.sync()?;
    let len = site.length()?;
    let verdict = header_at(site, len)?;
    Ok((len, verdict))
}

// What the site's file, which has `len` bytes, says of its header.
fn header_at<S: Site>(site: &mut S, len: u64) -> Result<HeaderState, DiskFailed>
    requires long { S.tells → len ≡ length (S.state site.old).image }
    ensures judged { S.tells → IfOk result (Judged (S.state site.old).image) }
    ensures enough { IfOk result (LongEnough len) }
    ensures told { S.tells → Reads (S.state site.old) (S.state site.new) }
    ensures cause { DiskCause (S.counts site.old) (S.counts site.new) result }
{
    let mut bytes = [0u8; 33];
    let held = if len < 33 { len as usize } else { 33 };
    site.read_at(0, &mut bytes[..held])?;
    Ok(judge(&bytes[..held]))
}
