//! The jobs that were begun, each by the attempt that it is of.

use itoa::Buffer;
use lcm_events::{Tag, Way};
use std::alloc::{AllocError, Global};
use std::collections::BTreeMap;
use vim_wire::{VimCall, VimReply};
use vnfm_base::Name;

/// An attempt of a manager.
#[derive(Clone, Copy, PartialEq, Eq, PartialOrd, Ord, Drop)]
struct Attempt {
    manager: u32,
    occ: u64,
    change: u16,
    number: u32,
    undoes: bool,
}

impl Attempt {
    fn of(manager: u32, tag: &Tag) -> Attempt {
        Attempt {
            manager,
            occ: tag.occ,
            change: tag.change,
            number: tag.attempt,
            undoes: matches!(tag.way, Way::Undo),
        }
    }
}

/// A job: how often it is still looked at while it runs, whether it was aborted then, and its place among the begun
/// ones, from 1.
#[derive(Clone, Copy, Drop)]
struct Job {
    looks: u32,
    aborted: bool,
    place: u64,
}

/// The jobs of an infrastructure. Each does its work on a resource that is named after its place among the begun ones:
/// `r1`, `r2` and on.
#[derive(Drop)]
pub struct VimJobs {
    looks: u32,
    begun: u64,
    jobs: BTreeMap<Attempt, Job>,
}

impl VimJobs {
    /// None was begun. Each will be told as running to so many looks, and then as done.
    pub fn new(alloc: Global, looks: u32) -> VimJobs {
        VimJobs {
            looks,
            begun: 0,
            jobs: BTreeMap::new(alloc),
        }
    }

    /// The reply to this call.
    ///
    /// A begin puts a job, unless there is one of its attempt, and is answered `Begun` in either case. A look is
    /// answered as the job stands:
    /// `Absent` where there is none. An abort is answered `Asked`, and ends a job that runs.
    /// After an error nothing has changed.
    pub fn answer(&mut self, alloc: Global, call: &VimCall) -> Result<VimReply, AllocError> {
        match call {
            VimCall::Begin { manager, tag, .. } => {
                self.begin(Attempt::of(*manager, tag))?;
                Ok(VimReply::Begun)
            }
            VimCall::Look { manager, tag } => self.look(alloc, Attempt::of(*manager, tag)),
            VimCall::Abort { manager, tag } => {
                self.abort(Attempt::of(*manager, tag));
                Ok(VimReply::Asked)
            }
        }
    }

    fn begin(&mut self, attempt: Attempt) -> Result<(), AllocError> {
        if self.jobs.contains_key(&attempt) {
            return Ok(());
        }
        let place = self.begun.saturating_add(1);
        let job = Job {
            looks: self.looks,
            aborted: false,
            place,
        };
        self.jobs.insert(attempt, job)?;
        self.begun = place;
        Ok(())
    }

    fn look(&mut self, alloc: Global, attempt: Attempt) -> Result<VimReply, AllocError> {
        let Some(job) = self.jobs.get_mut(&attempt) else {
            return Ok(VimReply::Absent);
        };
        if job.aborted {
            return Ok(VimReply::Aborted);
        }
        if job.looks > 0 {
            job.looks -= 1;
            return Ok(VimReply::Running);
        }
        let name = resource_name(alloc, job.place)?;
        Ok(match name {
            Some(name) => VimReply::Done(name),
            None => VimReply::Broken(0),
        })
    }

    fn abort(&mut self, attempt: Attempt) {
        if let Some(job) = self.jobs.get_mut(&attempt) {
            if job.looks > 0 {
                job.aborted = true;
            }
        }
    }
}

/// The name of the resource of the job at this place.
fn resource_name(alloc: Global, place: u64) -> Result<Option<Name>, AllocError> {
    let mut digits = Buffer::new();
    let mut text = Vec::from_slice(alloc, b"r")?;
    text.extend_from_slice(digits.format(place).as_bytes())?;
    Ok(Name::of(text.as_slice()))
}
