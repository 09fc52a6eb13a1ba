//! Sites in memory by a plan: what comes of the calls on them.

use site_traits::{JobPlan, MemSite, SitePlan};
use std::alloc::{AllocError, Global};

/// Bytes that each site has room for.
const ROOM: usize = 200_000;

/// Jobs that a site has room for where no act says so.
const JOBS: usize = 40;

/// What comes of the calls on a site that is made next.
pub struct Plan {
    /// What comes of the begins, in their order; the others are taken, and their jobs are done at the first look.
    pub work: Vec<JobPlan>,
    /// The jobs that there is room for.
    pub jobs: usize,
    /// The disk calls, from 1, that fail, in their order.
    pub failing: Vec<u64>,
    /// The look or abort, from 1 over both, that fails.
    pub blind: Option<u64>,
}

impl Drop for Plan {
    // Written out, so that the proof of a caller calls it and doesn't take the value apart at each of its ends.
    fn drop(self) {
        let Plan {
            work: _,
            jobs: _,
            failing: _,
            blind: _,
        } = self;
    }
}

impl Plan {
    /// All calls come through.
    pub fn new(alloc: Global) -> Plan {
        Plan {
            work: Vec::new(alloc),
            jobs: JOBS,
            failing: Vec::new(alloc),
            blind: None,
        }
    }

    /// A site with this file by this plan; one of which a look or an abort fails has an empty file.
    pub fn site(&self, alloc: Global, file: &[u8]) -> Result<MemSite, AllocError> {
        let plan = SitePlan {
            bytes: ROOM,
            jobs: self.jobs,
            failing: self.failing.to_vec(alloc)?,
            work: self.work.to_vec(alloc)?,
        };
        match self.blind {
            Some(call) => MemSite::unreachable(alloc, plan, vec![in alloc; call]?),
            None => MemSite::with_file(alloc, plan, file),
        }
    }
}

/// A site with this file, on which each call comes through.
pub fn plain_site(alloc: Global, file: &[u8]) -> Result<MemSite, AllocError> {
    Plan::new(alloc).site(alloc, file)
}
