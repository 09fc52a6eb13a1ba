// The journal of one manager in a file of format 1, which is read and never written.
ghost use Rattle.std.specs.Prelude.{◌≡◌, ◌≤◌, ◌<◌, ◌-◌, ◌*◌, ℕ, List, [], ◌∷◌, All, true, false, length, OnOk};
ghost use Rattle.site_traits.specs.Site.{KeepsJobs};
ghost use Rattle.journal_core.specs.Asking.{FailsWhere};
ghost use Rattle.old_journal.specs.Journal.{Stands};
ghost use Rattle.old_journal.specs.Marks.{IsMark, first_mark};
ghost use Rattle.old_journal.specs.Back.{ReadsBack, KeepsRecords};

use crate::back::record_from;
use crate::marks::{FIRST, Mark, Marks};
use journal_core::BackFault;
use site_traits::Site;
use std::marker::{Model, PhantomData};

/// The journal of one manager in a file of format 1. It never owns the site of its file, which is lent to each call,
/// and writes nothing to it.
///
/// A contract sees whose it is, how many records it has, where its closed gate stands and whether it is closed.
pub struct OldJournal<S: Site> {
    manager: u32,
    count: u64,
    end: u64,
    closed: bool,
    marks: Marks,
    last: Mark,
    size: usize,
    buffer: Vec<u8>,
    of: PhantomData<S>,
}

impl<S: Site> Drop for OldJournal<S> {
    // Written out, so that the proof of a caller calls it and doesn't take the value apart at each of its ends.
    fn drop(self) {
        let OldJournal {
            manager: _,
            count: _,
            end: _,
            closed: _,
            marks: _,
            last: _,
            size: _,
            buffer: _,
            of: _,
        } = self;
    }
}

impl<S: Site> Model for OldJournal<S> {
    ghost use Rattle.std.specs.Prelude.{◌≡◌, ◌≤◌, ◌<◌, ◌*◌, ◌∷◌, length, take};
    ghost use Rattle.old_journal.specs.Journal.{Ledger};
    ghost use Rattle.journal_records.specs.declared.limits.TheConstants.{MAX_RECORD};

    ghost Value = { Ledger };

    ghost view = { λ j. record {
      manager = j.manager;
      count = j.count;
      end = j.end;
      closed = j.closed;
      marks =
          j.last ∷ j.marks.places;
      back = take j.size j.buffer.items;
    } };

    ghost invariant = { λ j. (length j.buffer.items ≡ 65536) × (j.end < 268435456) × (j.count * 6 ≤ j.end)
        × (j.size ≤ MAX_RECORD) × (j.marks.seen ≡ j.count) };
}

impl<S: Site> OldJournal<S> {
    /// The journal of so many records, whose closed gate stands at `end`, with its buffer.
    pub(crate) fn of(
        manager: u32,
        count: u64,
        end: u64,
        buffer: Vec<u8>,
        marks: Marks,
    ) -> OldJournal<S>
        requires room { length buffer.items ≡ 65536 }
        requires small { end < 268435456 }
        requires few { count * 6 ≤ end }
        requires seen { marks.seen ≡ count }
        ensures { result ≡ record {
          manager = manager;
          count = count;
          end = end;
          closed = false;
          marks =
              first_mark ∷ marks.places;
          back = [];
        } }
    {
        OldJournal {
            manager,
            count,
            end,
            closed: false,
            marks,
            last: FIRST,
            size: 0,
            buffer,
            of: PhantomData,
        }
    }

    /// The number of the manager whose journal it is.
    pub fn manager(&self) -> u32
        ensures { result ≡ self.now.manager }
    {
        self.manager
    }

    /// How many records it has.
    pub fn count(&self) -> u64
        ensures value { result ≡ self.now.count }
        ensures small { self.now.count < 268435456 }
    {
        self.count
    }
}

impl<S: Site> OldJournal<S> {
    /// Reads record n, from 1, back: `record_back` then gives its bytes. It makes one read of the record's head and one
    /// of its bytes, and one of a head for each record between it and the nearest place that the journal keeps. It
    /// takes no memory.
    ///
    /// Refusals: `Disk`; `Broken(n)`, which never comes where the site tells its content.
    /// After `Disk`: the journal is closed; load it again.
    /// Source: own format, docs/JOURNAL.md.
    pub fn read_back(&mut self, site: &mut S, n: u64) -> Result<(), BackFault>
        requires some { 1 ≤ n }
        requires within { n ≤ self.old.count }
        requires usable { self.old.closed ≡ false }
        requires stands { S.tells → Stands (S.state site.old) self.old }

        ensures told { S.tells → ReadsBack n result self.new (S.state site.old) (S.state site.new) }
        ensures jobs { S.tells → KeepsJobs (S.state site.old) (S.state site.new) }
        ensures kept { KeepsRecords self.old self.new }
        ensures open { OnOk result (self.new.closed ≡ false) }
        ensures broken { (k : ℕ) → result ≡ Err (BackFault.Broken k) → (k ≡ n) × (self.new.closed ≡ false) }
        ensures closed { result ≡ Err BackFault.Disk → self.new.closed ≡ true }
        ensures counts { FailsWhere (result ≡ Err BackFault.Disk) (S.counts site.old) (S.counts site.new) }
    {
        let from = self.nearest(n);
        self.size = 0;
        self.closed = true;
        let found = record_from(site, from, n, self.end, &mut self.buffer)?;
        self.closed = false;
        let Some((place, size)) = found else {
            return Err(BackFault::Broken(n));
        };
        self.size = size;
        self.last = Mark {
            before: n,
            place: place + 5 + size as u64,
        };
        Ok(())
    }

    /// The bytes of the record that was read back last; none before one was.
    pub fn record_back(&self) -> &[u8]
        ensures { result.now ≡ self.now.back }
    {
        &self.buffer[..self.size]
    }

    // The nearest place before record n that the journal keeps.
    fn nearest(&self, n: u64) -> Mark
        requires some { 1 ≤ n }
        requires within { n ≤ self.now.count }
        ensures before { result.before < n }
        ensures near { (n - 1 - result.before) * 196608 ≤ self.now.end }
        ensures mark { (rs : List (List ℕ)) → All (IsMark rs) self.now.marks → IsMark rs result }
    {
        let kept = self.marks.near(n);
        if kept.before < self.last.before && self.last.before < n {
            self.last
        } else {
            kept
        }
    }
}
