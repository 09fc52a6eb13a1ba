//! What the acts of a run have before them: the sites and the plans of the objects, and what the last command did.

use crate::objects::{NOW, Ran};
use case_lives::{Earlier, Names, Plan, Step, Stop, Whole, plain_site};
use grant_desk::GrantAll;
use site_traits::{DoorPlan, GrantPlan, MemOrchestrator, MemSite, PostPlan};
use std::alloc::{AllocError, Global};

/// Bytes of a piece of a connection where no act says so: each comes in one.
const PIECE: usize = 16_777_216;

/// What the outside does at the next command.
pub struct Surroundings {
    /// The connections.
    pub door: Vec<DoorPlan>,
    /// The bytes of a piece of a connection.
    pub piece: usize,
    /// What the clock gives.
    pub now: u64,
    /// The put of a line, from 1, that fails.
    pub put: Option<u64>,
    /// What an orchestrator answers, in turn.
    pub says: Vec<GrantPlan>,
    /// What posts are answered, in turn.
    pub receipts: Vec<PostPlan>,
}

impl Drop for Surroundings {
    // Written out, so that the proof of a caller calls it and doesn't take the value apart at each of its ends.
    fn drop(self) {
        let Surroundings {
            door: _,
            piece: _,
            now: _,
            put: _,
            says: _,
            receipts: _,
        } = self;
    }
}

impl Surroundings {
    /// Nobody comes, no put fails, no orchestrator answers, and each post is answered with 204.
    fn new(alloc: Global) -> Surroundings {
        Surroundings {
            door: Vec::new(alloc),
            piece: PIECE,
            now: NOW,
            put: None,
            says: Vec::new(alloc),
            receipts: Vec::new(alloc),
        }
    }
}

/// What the acts of a run have before them.
pub struct Stage {
    /// The texts that have a name, of all runs.
    pub names: Names,
    /// What comes of the calls on the next site.
    pub plan: Plan,
    /// What the outside does at the next command.
    pub outside: Surroundings,
    /// The orchestrator that grants all.
    pub granting: GrantAll,
    /// The orchestrator of turns that gives planned answers.
    pub peer: MemOrchestrator,
    /// The site.
    pub site: MemSite,
    /// The site of the file to which a journal is migrated.
    pub spare: MemSite,
    /// The file behind which steps are recorded.
    pub base: Vec<u8>,
    /// The file before the last command.
    pub before: Vec<u8>,
    /// What the last command did.
    pub ran: Ran,
    /// The steps that were compared last.
    pub steps: Vec<Step>,
    /// The lives before the one at hand.
    pub earlier: Earlier,
    /// The whole life that is stopped, or of which a call fails.
    pub whole: Whole,
    /// The stop or the fault at hand.
    pub stop: Stop,
    /// How many stops found an attempt without a job.
    pub lost: usize,
    /// What short lives posted, each line where it came first.
    pub posted: Vec<u8>,
}

impl Drop for Stage {
    // Written out, so that the proof of a caller calls it and doesn't take the value apart at each of its ends.
    fn drop(self) {
        let Stage {
            names: _,
            plan: _,
            outside: _,
            granting: _,
            peer: _,
            site: _,
            spare: _,
            base: _,
            before: _,
            ran: _,
            steps: _,
            earlier: _,
            whole: _,
            stop: _,
            lost: _,
            posted: _,
        } = self;
    }
}

impl Stage {
    /// Before any run.
    pub fn new(alloc: Global) -> Result<Stage, AllocError> {
        let whole = Whole::none(alloc)?;
        let site = plain_site(alloc, &[])?;
        let spare = plain_site(alloc, &[])?;
        let granting = GrantAll::new(alloc)?;
        let peer = MemOrchestrator::new(alloc, Vec::new(alloc))?;
        Ok(Stage {
            names: Names::new(alloc),
            plan: Plan::new(alloc),
            outside: Surroundings::new(alloc),
            granting,
            peer,
            site,
            spare,
            base: Vec::new(alloc),
            before: Vec::new(alloc),
            ran: Ran::none(alloc),
            steps: Vec::new(alloc),
            earlier: Earlier::none(),
            whole,
            stop: Stop::none(),
            lost: 0,
            posted: Vec::new(alloc),
        })
    }

    /// Begins a run: nothing is planned, nothing was asked of the orchestrator, and the spare site has an empty file.
    pub fn begin(&mut self, alloc: Global) -> Result<(), AllocError> {
        self.granting = GrantAll::new(alloc)?;
        self.spare = plain_site(alloc, &[])?;
        self.plan = Plan::new(alloc);
        self.outside = Surroundings::new(alloc);
        self.earlier = Earlier::none();
        self.stop = Stop::none();
        self.posted = Vec::new(alloc);
        Ok(())
    }
}
