// The jobs of a site in memory: how each is planned, and how it goes on.
ghost use Rattle.std.specs.Prelude.{◌≡◌, ◌++◌, ◌<◌, ◌^◌, ℕ, Some, IfOk, IsTrue, ◌↔◌};
ghost use Rattle.site_traits.specs.KeptJobs.{resource_name, ended_as, found_of, look_of, looked, aborted_at, stood};
ghost use Rattle.site_traits.specs.KeptJobs.{has_been, phase_now};

use crate::jobs::{LookAnswer, Phase};
use itoa::Buffer;
use lcm_events::{Act, Listed, Tag};
use std::alloc::{AllocError, Global};
use vnfm_base::Name;

/// What comes of a begin.
#[derive(Clone, Copy, PartialEq, Eq)]
pub enum Arrival {
    /// It is answered Begun, and the job is put.
    Taken,
    /// The call fails, and the job is put.
    FailedArrived,
    /// The call fails, and no job is put.
    FailedLost,
    /// It is refused with this code, and no job is put.
    Refused(u32),
}

/// How a job ends by itself.
#[derive(Clone, Copy, PartialEq, Eq)]
pub enum JobEnd {
    /// It does its work.
    Done,
    /// It breaks with this code.
    Broken(u32),
}

/// What comes of a begin, and how its job goes on.
#[derive(Clone, Copy)]
pub struct JobPlan {
    /// What comes of the begin.
    pub arrival: Arrival,
    /// How many looks find the job running. The next one finds it ended.
    pub looks: u16,
    /// How it ends.
    pub end: JobEnd,
    /// Whether an abort ends it while it runs.
    pub abortable: bool,
}

/// What a look found.
#[derive(Clone, Copy, PartialEq, Eq)]
pub enum Found {
    /// There is no such job.
    Absent,
    /// It goes on.
    Running,
    /// It did its work; it is at this place of the list of jobs, from 1.
    Done(usize),
    /// It broke with this code.
    Broken(u32),
    /// It was aborted.
    Aborted,
}

/// A job, with the moments of its arrival and of its end, so that the jobs of each moment can be told. A moment is a
/// number of calls.
#[derive(Drop)]
pub struct KeptJob {
    /// The attempt that it is for.
    pub tag: Tag,
    /// Its work.
    pub act: Act,
    /// Its place on the list of jobs, from 1.
    pub place: usize,
    /// How many looks more find it running.
    pub looks: u16,
    /// How it ends by itself.
    pub end: JobEnd,
    /// Whether an abort ends it while it runs.
    pub abortable: bool,
    /// The moment from which on it is there.
    pub at: usize,
    /// The moment from which on it has ended.
    pub ended: Option<usize>,
    /// Whether an abort ended it.
    pub aborted: bool,
}

impl KeptJob {
    /// How it has ended.
    fn ending(&self) -> Found
        ensures { result ≡ ended_as self.now }
    {
        if self.aborted {
            return Found::Aborted;
        }
        match self.end {
            JobEnd::Done => Found::Done(self.place),
            JobEnd::Broken(code) => Found::Broken(code),
        }
    }

    /// How it stands.
    pub fn phase(&self) -> Phase
        ensures { result ≡ phase_now self.now }
    {
        if self.ended.is_none() {
            return Phase::Running;
        }
        match self.ending() {
            Found::Done(place) => Phase::Done(resource_name(place)),
            Found::Broken(code) => Phase::Broken(code),
            Found::Aborted => Phase::Aborted,
            Found::Absent | Found::Running => Phase::Running,
        }
    }

    /// What a look at it finds.
    pub fn found(&self) -> Found
        ensures { result ≡ found_of (Some self.now) }
    {
        if self.ended.is_some() || self.looks == 0 {
            return self.ending();
        }
        Found::Running
    }

    /// A look at it, at this moment.
    pub fn look(&mut self, now: usize)
        ensures { self.new ≡ looked now self.old }
    {
        if self.ended.is_some() {
            return;
        }
        if self.looks == 0 {
            self.ended = Some(now);
            return;
        }
        self.looks -= 1;
    }

    /// An abort of it, at this moment.
    pub fn abort(&mut self, now: usize)
        ensures { self.new ≡ aborted_at now self.old }
    {
        if self.ended.is_none() && self.abortable {
            self.ended = Some(now);
            self.aborted = true;
        }
    }

    /// A copy of it as it stood at this moment, for a site on which no call was made.
    pub fn stood(&self, alloc: Global, moment: usize) -> Result<KeptJob, AllocError>
        ensures { IfOk result (λ job. job ≡ stood moment self.now) }
    {
        let over = self.had_ended(moment);
        Ok(KeptJob {
            tag: self.tag,
            act: copy_of(alloc, &self.act)?,
            place: self.place,
            looks: self.looks,
            end: self.end,
            abortable: self.abortable,
            at: 0,
            ended: if over { Some(0) } else { None },
            aborted: over && self.aborted,
        })
    }

    // Whether it had ended by this moment.
    fn had_ended(&self, moment: usize) -> bool
        ensures { result ≡ has_been self.now.ended moment }
    {
        match self.ended {
            Some(end) => end <= moment,
            None => false,
        }
    }
}

/// The name of the resource of the job at this place of the list.
fn resource_name(place: usize) -> Name
    ensures { result ≡ resource_name place }
{
    let mut digits = Buffer::new();
    let text = digits.format(place).as_bytes();
    let mut bytes = [b'r'; 64];
    let end = 1 + text.len();
    bytes[1..end].copy_from_slice(text);
    named(&bytes[..end], place)
}

// The name of these bytes, which spell that of this place.
fn named(bytes: &[u8], place: usize) -> Name
    requires { bytes.now ≡ resource_name place }
    ensures { result ≡ resource_name place }
{
    match Name::of(bytes) {
        Some(name) => name,
        None => unreachable!(),
    }
}

/// What a look answers that found this.
pub fn look_answer(found: Found) -> LookAnswer
    ensures { result ≡ look_of found }
{
    match found {
        Found::Absent => LookAnswer::Absent,
        Found::Running => LookAnswer::Running,
        Found::Done(place) => LookAnswer::Done(resource_name(place)),
        Found::Broken(code) => LookAnswer::Broken(code),
        Found::Aborted => LookAnswer::Aborted,
    }
}

/// A copy of this work.
pub fn copy_of(alloc: Global, act: &Act) -> Result<Act, AllocError>
    ensures { IfOk result (λ copy. copy ≡ act.now) }
{
    let on = act.on.as_slice().to_vec(alloc)?;
    Ok(Act {
        verb: act.verb,
        kind: act.kind,
        template: act.template,
        vdu: act.vdu,
        serial: act.serial,
        vim: act.vim,
        zone: act.zone,
        size: act.size,
        cpus: act.cpus,
        on: Listed::of(on),
    })
}
