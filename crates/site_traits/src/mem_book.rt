//! The book of a site in memory: what is planned of its calls, and what was done.

ghost use Rattle.std.specs.Prelude.{◌≡◌, ◌↔◌, ℕ, List, get_or, length, Contains, IsTrue};
ghost use Rattle.site_traits.specs.Counts.{one_more, begin_counts, look_counts, abort_counts};
ghost use Rattle.site_traits.specs.Book.{IsWithinRoom, Runs, BeginRuns, LookRuns, AbortRuns, next_plan, unplanned};
ghost use Rattle.site_traits.specs.Book.{counted, counts_in};

use crate::jobs::{AbortAnswer, BeginAnswer, LookAnswer};
use crate::mem_jobs::{Arrival, JobEnd, JobPlan};
use crate::past::{Past, SiteCall};
use lcm_events::{Act, Tag};
use std::alloc::Global;

/// The plan of a site in memory, and what was done by it.
pub struct Book {
    pub(crate) alloc: Global,
    pub(crate) failing: Vec<u64>,
    pub(crate) unreachable: Vec<u64>,
    pub(crate) work: Vec<JobPlan>,
    pub(crate) room: usize,
    pub(crate) calls: u64,
    pub(crate) begins: u64,
    pub(crate) asked: u64,
    pub(crate) faults: u64,
    pub(crate) vim_faults: u64,
    pub(crate) look_faults: u64,
    pub(crate) refusals: u64,
    pub(crate) writes: u64,
    pub(crate) cuts: u64,
    pub(crate) syncs: u64,
    pub(crate) past: Past,
}

impl Drop for Book {
    // Written out, so that the proof of a caller calls it and doesn't take the value apart at each of its ends.
    fn drop(self) {
        let Book {
            alloc: _,
            failing: _,
            unreachable: _,
            work: _,
            room: _,
            calls: _,
            begins: _,
            asked: _,
            faults: _,
            vim_faults: _,
            look_faults: _,
            refusals: _,
            writes: _,
            cuts: _,
            syncs: _,
            past: _,
        } = self;
    }
}

// Counts a call, and says whether it is one of those that fail.
fn is_named(calls: &mut u64, failing: &[u64]) -> bool
    ensures counted { calls.new ≡ one_more calls.old }
    ensures named { IsTrue result ↔ Contains failing.now (one_more calls.old) }
{
    *calls = calls.saturating_add(1);
    let now = *calls;
    failing.contains(&now)
}

// The plan at this place, from 0, of those that the begins have in turn.
fn plan_at(work: &[JobPlan], place: u64) -> JobPlan
    ensures { result ≡ get_or work.now place unplanned }
{
    if place >= work.len() as u64 {
        return JobPlan {
            arrival: Arrival::Taken,
            looks: 0,
            end: JobEnd::Done,
            abortable: true,
        };
    }
    work[place as usize]
}

// A call that writes lies within the room for the file.
fn is_within_room(what: SiteCall, len: usize, room: usize) -> bool
    ensures { (bytes : List ℕ) (b : Book) → length bytes ≡ len → b.room ≡ room
        → (IsTrue result ↔ IsWithinRoom what bytes b) }
{
    match what {
        SiteCall::Wrote { at } => at <= room as u64 && len as u64 <= room as u64 - at,
        _ => true,
    }
}

impl Book {
    // Counts a write, a cut or a sync.
    fn count(&mut self, what: SiteCall)
        ensures counts { counts_in self.new ≡ counted what (counts_in self.old) }
        ensures rest { self.new ≡ record self.old {
          writes = self.new.writes;
          cuts = self.new.cuts;
          syncs =
              self.new.syncs;
        } }
    {
        match what {
            SiteCall::Wrote { .. } => self.writes = self.writes.saturating_add(1),
            SiteCall::Cut { .. } => self.cuts = self.cuts.saturating_add(1),
            SiteCall::Synced => self.syncs = self.syncs.saturating_add(1),
            _ => {}
        }
    }

    // Counts a begin that was answered so.
    fn count_begin(&mut self, answer: BeginAnswer)
        ensures counts { counts_in self.new ≡ begin_counts answer (counts_in self.old) }
        ensures rest { self.new ≡ record self.old { vim_faults = self.new.vim_faults; refusals = self.new.refusals } }
    {
        match answer {
            BeginAnswer::Begun => {}
            BeginAnswer::Refused(_) => self.refusals = self.refusals.saturating_add(1),
            BeginAnswer::Failed => self.vim_faults = self.vim_faults.saturating_add(1),
        }
    }

    // Counts a look that was answered so.
    fn count_look(&mut self, answer: &LookAnswer)
        ensures counts { counts_in self.new ≡ look_counts answer.now (counts_in self.old) }
        ensures rest { self.new ≡ record self.old {
          vim_faults = self.new.vim_faults;
          look_faults =
              self.new.look_faults;
        } }
    {
        if let LookAnswer::Failed = *answer {
            self.vim_faults = self.vim_faults.saturating_add(1);
            self.look_faults = self.look_faults.saturating_add(1);
        }
    }

    // Counts an abort that was answered so.
    fn count_abort(&mut self, answer: AbortAnswer)
        ensures counts { counts_in self.new ≡ abort_counts answer (counts_in self.old) }
        ensures rest { self.new ≡ record self.old { vim_faults = self.new.vim_faults } }
    {
        if let AbortAnswer::Failed = answer {
            self.vim_faults = self.vim_faults.saturating_add(1);
        }
    }

    // Counts a begin, and gives its plan.
    fn next(&mut self) -> JobPlan
        ensures plan { result ≡ next_plan self.old }
        ensures rest { self.new ≡ record self.old { begins = one_more self.old.begins } }
    {
        let place = self.begins;
        self.begins = self.begins.saturating_add(1);
        plan_at(&self.work, place)
    }

    // A begin.
    pub(crate) fn begin(&mut self, tag: &Tag, act: &Act) -> BeginAnswer
        ensures runs { BeginRuns tag.now act.now result self.old self.new }
    {
        let plan = self.next();
        let answer = self.past.begin(self.alloc, tag, act, plan);
        self.count_begin(answer);
        answer
    }

    // A look.
    pub(crate) fn look(&mut self, tag: &Tag) -> LookAnswer
        ensures runs { LookRuns tag.now result self.old self.new }
    {
        let answer = if is_named(&mut self.asked, &self.unreachable) {
            LookAnswer::Failed
        } else {
            self.past.look(tag)
        };
        self.count_look(&answer);
        answer
    }

    // An abort.
    pub(crate) fn abort(&mut self, tag: &Tag) -> AbortAnswer
        ensures runs { AbortRuns tag.now result self.old self.new }
    {
        let answer = if is_named(&mut self.asked, &self.unreachable) {
            AbortAnswer::Failed
        } else {
            self.past.abort(tag)
        };
        self.count_abort(answer);
        answer
    }

    // A call with these bytes: it is counted, and on record where it is served, else counted as a fault too.
    pub(crate) fn run(&mut self, what: SiteCall, bytes: &[u8]) -> bool
        ensures runs { Runs what bytes.now result self.old self.new }
    {
        self.count(what);
        let named = is_named(&mut self.calls, &self.failing);
        if named || !is_within_room(what, bytes.len(), self.room) || !self.past.push(what, bytes) {
            self.faults = self.faults.saturating_add(1);
            return false;
        }
        true
    }
}
