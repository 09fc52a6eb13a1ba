//! A site in memory, which tells all.

ghost use Rattle.std.specs.Prelude.{◌≡◌, ◌≤◌, ◌<◌, ◌+◌, [], map, reverse, get_or, length, take, drop, max, All, IfOk};
ghost use Rattle.std.specs.Prelude.{OnOk, is_ok, vec_capacity};
ghost use Rattle.site_traits.specs.Counts.{Ask, asked, DiskCause, begin_counts, look_counts, abort_counts};
ghost use Rattle.site_traits.specs.Book.{IsPlanned, HasWork, Runs, BeginRuns, LookRuns, AbortRuns};
ghost use Rattle.site_traits.specs.KeptJobs.{IsEarly};
ghost use Rattle.site_traits.specs.Disk.{change_of, disk, stopped_image};

use crate::jobs::{AbortAnswer, BeginAnswer, LookAnswer, Phase};
use crate::log::CALLS;
use crate::mem_book::Book;
use crate::mem_file::{Choice, copied_into, one_call, overlay};
use crate::mem_jobs::{JobPlan, KeptJob};
use crate::past::{Past, SiteCall};
use crate::site::{DiskFailed, Site};
use lcm_events::{Act, Tag};
use std::alloc::{AllocError, Global};

/// How a site in memory is made.
#[derive(Drop)]
pub struct SitePlan {
    /// The bytes that the file has room for. A write past them fails.
    pub bytes: usize,
    /// The jobs that there is room for. A begin past them is refused with code 1.
    pub jobs: usize,
    /// The numbers, from 1, of the disk calls that fail.
    pub failing: Vec<u64>,
    /// What comes of each begin in turn. After these each job is taken, ends at the first look and can be aborted.
    pub work: Vec<JobPlan>,
}

/// A site in memory, which tells all. A call on the file that fails changes nothing and is not put on record.
///
/// A call on the file fails where its number is on the plan, where a write doesn't lie within the room for the file,
/// and where its record has no room. A begin comes out by its plan, and a look or an abort fails where its number is on
/// the plan; each of the three fails, changes nothing and is not put on record where its record has no room, and a
/// begin where there is no memory for a copy of the work.
///
/// Source: own rule.
pub struct MemSite {
    first: Vec<u8>,
    file: Vec<u8>,
    book: Book,
    ghost seen: { file.items ≡ (disk first.items (map change_of book.past.log.calls)).seen },
    ghost roomy: { book.room ≤ vec_capacity file },
}

impl Drop for MemSite {
    // Written out, so that the proof of a caller calls it and doesn't take the value apart at each of its ends.
    fn drop(self) {
        let MemSite {
            first: _,
            file: _,
            book: _,
        } = self;
    }
}

impl MemSite {
    ghost use Rattle.site_traits.specs.MemSite.{IsFresh};

    /// A site with an empty file, on which nothing is pending, and no job.
    ///
    /// It takes all its room: for the plan's bytes, for twice as many written, for 1,048,576 calls and for the plan's
    /// jobs, but for the names in their work.
    pub fn new(alloc: Global, plan: SitePlan) -> Result<MemSite, AllocError>
        ensures fresh { IfOk result (λ m. IsFresh m [] []) }
        ensures plan { IfOk result (λ m. IsPlanned plan.failing.items plan.bytes m.book) }
        ensures work { IfOk result (λ m. HasWork [] plan.work.items plan.jobs m.book) }
    {
        MemSite::with_file(alloc, plan, &[])
    }

    /// A site with an empty file and no job, over which the looks and aborts with these numbers, from 1 over both,
    /// fail.
    ///
    /// A look that fails so is none of the looks of a job's plan.
    pub fn unreachable(
        alloc: Global,
        plan: SitePlan,
        calls: Vec<u64>,
    ) -> Result<MemSite, AllocError>
        ensures fresh { IfOk result (λ m. IsFresh m [] []) }
        ensures plan { IfOk result (λ m. IsPlanned plan.failing.items plan.bytes m.book) }
        ensures work { IfOk result (λ m. HasWork calls.items plan.work.items plan.jobs m.book) }
    {
        made(alloc, plan, calls, Vec::new(alloc), &[])
    }

    /// A site with this file, on which nothing is pending, and no job; its room is for the plan's bytes, or as many as
    /// the file has.
    pub fn with_file(alloc: Global, plan: SitePlan, file: &[u8]) -> Result<MemSite, AllocError>
        ensures fresh { IfOk result (λ m. IsFresh m file.now []) }
        ensures plan { IfOk result (λ m. IsPlanned plan.failing.items (max plan.bytes (length file.now)) m.book) }
        ensures work { IfOk result (λ m. HasWork [] plan.work.items plan.jobs m.book) }
    {
        made(alloc, plan, Vec::new(alloc), Vec::new(alloc), file)
    }
}

// A site with this file and these jobs, on which no call was made.
fn made(
    alloc: Global,
    plan: SitePlan,
    unreachable: Vec<u64>,
    kept: Vec<KeptJob>,
    file: &[u8],
) -> Result<MemSite, AllocError>
    requires early { All (IsEarly 0) kept.items }
    ensures first { IfOk result (λ m. m.first.items ≡ file.now) }
    ensures kept { IfOk result (λ m. m.book.past.kept.items ≡ kept.items) }
    ensures plan { IfOk result (λ m. IsPlanned plan.failing.items (max plan.bytes (length file.now)) m.book) }
    ensures work { IfOk result (λ m. HasWork unreachable.items plan.work.items plan.jobs m.book) }
{
    let SitePlan {
        bytes,
        jobs,
        failing,
        work,
    } = plan;
    let room = bytes.max(file.len());
    let first = file.to_vec(alloc)?;
    let file = copied_into(alloc, room, file)?;
    let past = Past::new(alloc, CALLS, room.saturating_mul(2), jobs, kept)?;
    let book = Book {
        alloc,
        failing,
        unreachable,
        work,
        room,
        calls: 0,
        begins: 0,
        asked: 0,
        faults: 0,
        vim_faults: 0,
        look_faults: 0,
        refusals: 0,
        writes: 0,
        cuts: 0,
        syncs: 0,
        past,
    };
    Ok(MemSite { first, file, book })
}

impl MemSite {
    ghost use Rattle.site_traits.specs.MemSite.{IsFresh, image_of, state_of, counts_of};
    ghost use Rattle.site_traits.specs.Site.{pair_of};
    ghost use Rattle.site_traits.specs.Disk.{LeftSince};
    ghost use Rattle.site_traits.specs.KeptJobs.{jobs_at, kept_at, job_of};

    /// The file, as a read gives it.
    pub fn file(&self) -> &[u8]
        ensures { result.now ≡ image_of self.now }
    {
        &self.file
    }

    /// How many calls are on record. It is the moment that the site tells.
    pub fn moment(&self) -> usize
        ensures { result ≡ length self.now.book.past.log.calls }
    {
        self.book.past.log.len()
    }

    /// Call number k on record, from 0.
    pub fn call(&self, k: usize) -> SiteCall
        requires { k < length self.now.book.past.log.calls }
        ensures { result ≡ (get_or self.now.book.past.log.calls k (result, [])).0 }
    {
        self.book.past.log.what(k)
    }

    /// A site with the file that this choice leaves of a stop after so many calls, and the jobs that there were then.
    /// Nothing is pending on it, no call of it is to fail, and nothing is planned of its begins. Its room is that of
    /// this site, or as much as the file needs.
    ///
    /// A job keeps its plan, and the looks that are left of it at the end of the record.
    pub fn stopped(
        &self,
        alloc: Global,
        moment: usize,
        choice: Choice,
    ) -> Result<MemSite, AllocError>
        requires { moment ≤ length self.now.book.past.log.calls }
        ensures image { IfOk result (λ m. IsFresh m (stopped_image choice self.now.first.items
            (map change_of (take moment self.now.book.past.log.calls)))
            (jobs_at moment self.now.book.past.kept.items)) }
        ensures plan { IfOk result (λ m. IsPlanned [] (max self.now.book.room (length m.first.items)) m.book) }
        ensures work { IfOk result (λ m. HasWork [] [] self.now.book.past.most m.book) }
        ensures jobs { IfOk result (λ m. m.book.past.kept.items ≡ kept_at moment self.now.book.past.kept.items) }
        ensures allowed { IfOk result (λ m. LeftSince self.now.first.items
            (map change_of self.now.book.past.log.calls) self.now.book.past.kept.items moment
            (pair_of (image_of m) (state_of m).jobs)) }
    {
        let left = self.left_by(alloc, moment, choice)?;
        let plan = SitePlan {
            bytes: self.book.room,
            jobs: self.book.past.most,
            failing: Vec::new(alloc),
            work: Vec::new(alloc),
        };
        let kept = self.book.past.kept_at(alloc, moment)?;
        made(alloc, plan, Vec::new(alloc), kept, &left)
    }

    // The file that this choice leaves of a stop after so many calls.
    fn left_by(&self, alloc: Global, moment: usize, choice: Choice) -> Result<Vec<u8>, AllocError>
        requires { moment ≤ length self.now.book.past.log.calls }
        ensures { IfOk result (λ left. left.items ≡ stopped_image choice self.now.first.items
            (map change_of (take moment self.now.book.past.log.calls))) }
    {
        let mut seen = self.first.to_vec(alloc)?;
        let mut left = self.first.to_vec(alloc)?;
        for k in 0..moment {
            one_call(
                alloc,
                &mut seen,
                &mut left,
                choice,
                self.book.past.log.what(k),
                self.book.past.log.bytes_of(k),
            )?;
        }
        Ok(left)
    }

    /// How many jobs there are.
    pub fn jobs(&self) -> usize
        ensures { result ≡ length (state_of self.now).jobs }
    {
        self.book.past.kept.len()
    }

    /// The job at place k of the list, from 0: the attempt that it is for, its work, and how it stands.
    pub fn job(&self, k: usize) -> (Tag, &Act, Phase)
        requires { k < length (state_of self.now).jobs }
        ensures { job_of result.0 result.1.now result.2 ≡ get_or (reverse (state_of self.now).jobs) k
            (job_of result.0 result.1.now result.2) }
    {
        let job = &self.book.past.kept[k];
        (job.tag, &job.act, job.phase())
    }

    /// How many begins, looks and aborts failed.
    pub fn vim_faults(&self) -> u64
        ensures { result ≡ (counts_of self.now).vim }
    {
        self.book.vim_faults
    }

    /// How many looks failed.
    pub fn look_faults(&self) -> u64
        ensures { result ≡ (counts_of self.now).look }
    {
        self.book.look_faults
    }

    /// How many begins were refused.
    pub fn refusals(&self) -> u64
        ensures { result ≡ (counts_of self.now).refusals }
    {
        self.book.refusals
    }

    /// How many disk calls failed.
    pub fn faults(&self) -> u64
        ensures { result ≡ self.now.book.faults }
    {
        self.book.faults
    }

    /// How many writes were asked for.
    pub fn writes(&self) -> u64
        ensures { result ≡ self.now.book.writes }
    {
        self.book.writes
    }

    /// How many syncs were asked for.
    pub fn syncs(&self) -> u64
        ensures { result ≡ self.now.book.syncs }
    {
        self.book.syncs
    }
}

impl Site for MemSite {
    ghost use Rattle.site_traits.specs.MemSite.{image_of, state_of, counts_of};
    ghost use Rattle.site_traits.specs.Site.{Reads, Writes, Cuts, Syncs, Begins, Looks, Aborts};

    ghost tells = { Unit {0} };

    ghost state = { state_of };

    ghost counts = { counts_of };

    fn length(&mut self) -> Result<u64, DiskFailed>
        ensures length { IfOk result (λ n. n ≡ length (image_of self.old)) }
        ensures told { Reads (state_of self.old) (state_of self.new) }
        ensures cause { DiskCause (counts_of self.old) (counts_of self.new) result }
        ensures runs { Runs (SiteCall.Length) [] (is_ok result) self.old.book self.new.book }
    {
        if !self.book.run(SiteCall::Length, &[]) {
            return Err(DiskFailed);
        }
        Ok(self.file.len() as u64)
    }

    fn read_at(&mut self, at: u64, into: &mut [u8]) -> Result<(), DiskFailed>
        requires { at + length into.old ≤ length (image_of self.old) }
        ensures bytes { OnOk result (into.new ≡ take (length into.old) (drop at (image_of self.old))) }
        ensures told { Reads (state_of self.old) (state_of self.new) }
        ensures cause { DiskCause (counts_of self.old) (counts_of self.new) result }
        ensures runs { Runs (SiteCall.Read at (length into.old)) [] (is_ok result) self.old.book self.new.book }
    {
        let len = into.len();
        if !self.book.run(SiteCall::Read { at, len }, &[]) {
            return Err(DiskFailed);
        }
        let from = at as usize;
        into.copy_from_slice(&self.file[from..from + len]);
        Ok(())
    }

    fn write_at(&mut self, at: u64, bytes: &[u8]) -> Result<(), DiskFailed>
        requires { at ≤ length (image_of self.old) }
        ensures told { Writes at bytes.now result (state_of self.old) (state_of self.new) }
        ensures cause { DiskCause (asked Ask.write (counts_of self.old)) (counts_of self.new) result }
        ensures runs { Runs (SiteCall.Wrote at) bytes.now (is_ok result) self.old.book self.new.book }
    {
        if !self.book.run(SiteCall::Wrote { at }, bytes) {
            return Err(DiskFailed);
        }
        overlay(&mut self.file, at as usize, bytes);
        Ok(())
    }

    fn cut(&mut self, to: u64) -> Result<(), DiskFailed>
        requires { to ≤ length (image_of self.old) }
        ensures told { Cuts to result (state_of self.old) (state_of self.new) }
        ensures cause { DiskCause (asked Ask.cut (counts_of self.old)) (counts_of self.new) result }
        ensures runs { Runs (SiteCall.Cut to) [] (is_ok result) self.old.book self.new.book }
    {
        if !self.book.run(SiteCall::Cut { to }, &[]) {
            return Err(DiskFailed);
        }
        self.file.truncate(to as usize);
        Ok(())
    }

    fn sync(&mut self) -> Result<(), DiskFailed>
        ensures told { Syncs result (state_of self.old) (state_of self.new) }
        ensures cause { DiskCause (asked Ask.sync (counts_of self.old)) (counts_of self.new) result }
        ensures runs { Runs (SiteCall.Synced) [] (is_ok result) self.old.book self.new.book }
    {
        if !self.book.run(SiteCall::Synced, &[]) {
            return Err(DiskFailed);
        }
        Ok(())
    }

    fn begin(&mut self, tag: &Tag, act: &Act) -> BeginAnswer
        ensures told { Begins tag.now act.now result (state_of self.old) (state_of self.new) }
        ensures cause { counts_of self.new ≡ begin_counts result (counts_of self.old) }
        ensures runs { BeginRuns tag.now act.now result self.old.book self.new.book }
    {
        self.book.begin(tag, act)
    }

    fn look(&mut self, tag: &Tag) -> LookAnswer
        ensures told { Looks tag.now result (state_of self.old) (state_of self.new) }
        ensures cause { counts_of self.new ≡ look_counts result (counts_of self.old) }
        ensures runs { LookRuns tag.now result self.old.book self.new.book }
    {
        self.book.look(tag)
    }

    fn abort(&mut self, tag: &Tag) -> AbortAnswer
        ensures told { Aborts tag.now result (state_of self.old) (state_of self.new) }
        ensures cause { counts_of self.new ≡ abort_counts result (counts_of self.old) }
        ensures runs { AbortRuns tag.now result self.old.book self.new.book }
    {
        self.book.abort(tag)
    }
}
