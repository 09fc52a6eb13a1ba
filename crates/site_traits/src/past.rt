// What has happened at a site in memory: the calls on record, and the jobs with their moments.
ghost use Rattle.std.specs.Prelude.{◌≡◌, ◌≤◌, ◌<◌, ◌↔◌, [], All, IfOk, IfSome, IsTrue, true, false, length};
ghost use Rattle.std.specs.Prelude.{if◌then◌else◌, vec_capacity};
ghost use Rattle.site_traits.specs.Log.{HasRoom, with_call, empty};
ghost use Rattle.site_traits.specs.KeptJobs.{IsEarly, IsPlaced, begin_of, arrives, found_of, latest_of, latest_changed};
ghost use Rattle.site_traits.specs.KeptJobs.{looked, aborted_at, kept_at};

use crate::jobs::{AbortAnswer, BeginAnswer, LookAnswer};
use crate::log::Log;
use crate::mem_jobs::{Arrival, Found, JobPlan, KeptJob, copy_of, look_answer};
use lcm_events::{Act, Tag};
use std::alloc::{AllocError, Global};

/// A call on a site, as it stands on record.
#[derive(Clone, Copy)]
pub enum SiteCall {
    /// The length was asked.
    Length,
    /// So many bytes were read.
    Read {
        /// The place of the first.
        at: u64,
        /// Their number.
        len: usize,
    },
    /// Bytes were written.
    Wrote {
        /// The place of the first.
        at: u64,
    },
    /// The file was cut.
    Cut {
        /// To this length.
        to: u64,
    },
    /// The file was synced.
    Synced,
    /// A job was asked for.
    Began {
        /// The attempt that it is for.
        tag: Tag,
        /// What came of it.
        came: Arrival,
    },
    /// A job was looked at.
    Looked {
        /// The attempt that it is for.
        tag: Tag,
        /// How it stood.
        found: Found,
    },
    /// A job was asked to end.
    Aborted {
        /// The attempt that it is for.
        tag: Tag,
    },
}

/// The calls on record and the jobs. All its room is taken when it is made, but for the names in the work of jobs.
pub struct Past {
    /// The calls on record.
    pub log: Log<SiteCall>,
    /// The jobs, in the order of their arrival.
    pub kept: Vec<KeptJob>,
    /// How many jobs there is room for.
    pub most: usize,
    ghost early: { All (IsEarly (length log.calls)) kept.items },
    ghost roomy: { most ≤ vec_capacity kept },
}

impl Drop for Past {
    // Written out, so that the proof of a caller calls it and doesn't take the value apart at each of its ends.
    fn drop(self) {
        let Past {
            log: _,
            kept: _,
            most: _,
        } = self;
    }
}

impl Past {
    ghost use Rattle.site_traits.specs.Past.{BeginsBy, IsBegun, IsNotBegun, IsLookedAt, IsUnseen, IsAborted, IsUnheard};
    ghost use Rattle.std.specs.Prelude.{◌⊎◌};

    /// These jobs and no call, with room for so many calls, bytes and jobs.
    pub fn new(
        alloc: Global,
        calls: usize,
        bytes: usize,
        jobs: usize,
        kept: Vec<KeptJob>,
    ) -> Result<Past, AllocError>
        requires early { All (IsEarly 0) kept.items }
        ensures log { IfOk result (λ p. p.log ≡ empty calls bytes) }
        ensures kept { IfOk result (λ p. p.kept.items ≡ kept.items) }
        ensures most { IfOk result (λ p. p.most ≡ jobs) }
    {
        let mut kept = kept;
        kept.reserve(jobs)?;
        Ok(Past {
            log: Log::new(alloc, calls, bytes)?,
            kept,
            most: jobs,
        })
    }

    /// A copy of the jobs of this moment, as they stood then, for a site on which no call was made.
    pub fn kept_at(&self, alloc: Global, moment: usize) -> Result<Vec<KeptJob>, AllocError>
        ensures { IfOk result (λ kept. kept.items ≡ kept_at moment self.now.kept.items) }
    {
        let mut kept = Vec::new(alloc);
        for job in &self.kept {
            if job.at <= moment {
                kept.push(job.stood(alloc, moment)?)?;
            }
        }
        Ok(kept)
    }

    /// Puts a call on the file with these bytes on record where there is room for it; else nothing changes.
    pub fn push(&mut self, what: SiteCall, bytes: &[u8]) -> bool
        ensures room { IsTrue result ↔ HasRoom (length bytes.now) self.old.log }
        ensures log { self.new.log ≡ (if result then with_call what bytes.now self.old.log else self.old.log) }
        ensures kept { self.new.kept.items ≡ self.old.kept.items }
        ensures most { self.new.most ≡ self.old.most }
    {
        self.log.push(what, bytes, &[])
    }

    /// A begin by this plan.
    pub fn begin(&mut self, alloc: Global, tag: &Tag, act: &Act, plan: JobPlan) -> BeginAnswer
        ensures { BeginsBy tag.now act.now plan result self.old self.new }
    {
        let came = if self.most <= self.kept.len() {
            Arrival::Refused(1)
        } else {
            plan.arrival
        };
        match came {
            Arrival::Taken | Arrival::FailedArrived => self.arrive(alloc, tag, act, plan, came),
            _ => self.pass(tag, came),
        }
    }

    // A begin that puts its job, where there is room and memory for it.
    fn arrive(
        &mut self,
        alloc: Global,
        tag: &Tag,
        act: &Act,
        plan: JobPlan,
        came: Arrival,
    ) -> BeginAnswer
        requires room { length self.old.kept.items < self.old.most }
        requires arrives { arrives came ≡ true }
        ensures { IsBegun tag.now act.now plan came result self.old self.new
            ⊎ IsNotBegun came result self.old self.new }
    {
        let Ok(act) = copy_of(alloc, act) else {
            return BeginAnswer::Failed;
        };
        if !self.log.push(SiteCall::Began { tag: *tag, came }, &[], &[]) {
            return BeginAnswer::Failed;
        }
        let at = self.log.len();
        let place = self.kept.len() + 1;
        self.kept.push_reserved(KeptJob {
            tag: *tag,
            act,
            place,
            looks: plan.looks,
            end: plan.end,
            abortable: plan.abortable,
            at,
            ended: None,
            aborted: false,
        });
        begin_answer(came)
    }

    // A begin that puts no job.
    fn pass(&mut self, tag: &Tag, came: Arrival) -> BeginAnswer
        requires lost { arrives came ≡ false }
        ensures { (act : Act) (plan : JobPlan) → IsBegun tag.now act plan came result self.old self.new
            ⊎ IsNotBegun came result self.old self.new }
    {
        if !self.log.push(SiteCall::Began { tag: *tag, came }, &[], &[]) {
            return BeginAnswer::Failed;
        }
        begin_answer(came)
    }

    /// A look at the latest job of this tag.
    pub fn look(&mut self, tag: &Tag) -> LookAnswer
        ensures { IsLookedAt tag.now result self.old self.new ⊎ IsUnseen result self.old self.new }
    {
        let place = latest(&self.kept, tag);
        let found = found_at(&self.kept, place);
        if !self
            .log
            .push(SiteCall::Looked { tag: *tag, found }, &[], &[])
        {
            return LookAnswer::Failed;
        }
        let now = self.log.len();
        look_at(&mut self.kept, place, now);
        look_answer(found)
    }

    /// An abort of the latest job of this tag.
    pub fn abort(&mut self, tag: &Tag) -> AbortAnswer
        ensures { IsAborted tag.now result self.old self.new ⊎ IsUnheard result self.old self.new }
    {
        let place = latest(&self.kept, tag);
        if !self.log.push(SiteCall::Aborted { tag: *tag }, &[], &[]) {
            return AbortAnswer::Failed;
        }
        let now = self.log.len();
        abort_at(&mut self.kept, place, now);
        AbortAnswer::Asked
    }
}

// What begin answers, by what comes of it.
fn begin_answer(came: Arrival) -> BeginAnswer
    ensures { result ≡ begin_of came }
{
    match came {
        Arrival::Taken => BeginAnswer::Begun,
        Arrival::Refused(code) => BeginAnswer::Refused(code),
        Arrival::FailedArrived | Arrival::FailedLost => BeginAnswer::Failed,
    }
}

// The place of the latest job of this tag, where there is one.
fn latest(kept: &[KeptJob], tag: &Tag) -> Option<usize>
    ensures { IsPlaced tag.now kept.now result }
{
    let mut k = kept.len();
    while k > 0 {
        k -= 1;
        if *tag == kept[k].tag {
            return Some(k);
        }
    }
    None
}

// What a look finds at this place, where there is one.
fn found_at(kept: &[KeptJob], place: Option<usize>) -> Found
    requires { IfSome place (λ k. k < length kept.now) }
    ensures { (tag : Tag) → IsPlaced tag kept.now place → result ≡ found_of (latest_of tag kept.now) }
{
    match place {
        Some(k) => kept[k].found(),
        None => Found::Absent,
    }
}

// A look, at this moment, at the job at this place, where there is one.
fn look_at(kept: &mut Vec<KeptJob>, place: Option<usize>, now: usize)
    requires { IfSome place (λ k. k < length kept.old.items) }
    ensures jobs { (tag : Tag) → IsPlaced tag kept.old.items place
        → kept.new.items ≡ latest_changed tag (looked now) kept.old.items }
    ensures capacity { vec_capacity kept.old ≤ vec_capacity kept.new }
{
    match place {
        Some(k) => kept[k].look(now),
        None => {}
    }
}

// An abort, at this moment, of the job at this place, where there is one.
fn abort_at(kept: &mut Vec<KeptJob>, place: Option<usize>, now: usize)
    requires { IfSome place (λ k. k < length kept.old.items) }
    ensures jobs { (tag : Tag) → IsPlaced tag kept.old.items place
        → kept.new.items ≡ latest_changed tag (aborted_at now) kept.old.items }
    ensures capacity { vec_capacity kept.old ≤ vec_capacity kept.new }
{
    match place {
        Some(k) => kept[k].abort(now),
        None => {}
    }
}
