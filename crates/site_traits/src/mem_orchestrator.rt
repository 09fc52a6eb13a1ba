// An orchestrator in memory, which gives the answers of a plan and tells all.
ghost use Rattle.std.specs.Prelude.{◌≡◌, ◌≤◌, ◌↔◌, ◌++◌, ◌∷◌, [], IfOk, IsSome, Some, None, length, vec_len, false};
ghost use Rattle.std.specs.Prelude.{IsTrue};
ghost use Rattle.site_traits.specs.Log.{HasRoom, SameRoom};
ghost use Rattle.site_traits.specs.MemPeers.{answer_of, answers_of, bytes_of, next_answer, place_after};

use crate::heard::{HEARD_MAX, Heard};
use crate::log::{BYTES, CALLS, Log};
use crate::orchestrator::{Call, Orchestrator};
use std::alloc::{AllocError, Global};
use vnfm_base::{Bytes, Line};

/// What an orchestrator in memory does with a call.
#[derive(Drop)]
pub enum GrantPlan {
    /// It fails.
    Fail,
    /// It gives this answer. A body of more than 1,048,576 bytes fails.
    Raw {
        /// The status.
        status: u16,
        /// The Location.
        location: Option<Line>,
        /// The body.
        body: Bytes,
    },
}

/// An orchestrator in memory, which tells all: it gives the answers of its plan in order, and behind the plan each call
/// fails.
///
/// It has room for 1,048,576 calls and 64 MiB of each, bodies asked and locations polled; a call past them fails and
/// leaves the plan where it is.
pub struct MemOrchestrator {
    plans: Vec<GrantPlan>,
    next: usize,
    asked: Log<()>,
    polled: Log<()>,
    calls: u64,
    faults: u64,
    ghost within: { next ≤ vec_len plans },
}

impl Drop for MemOrchestrator {
    // Written out, so that the proof of a caller calls it and doesn't take the value apart at each of its ends.
    fn drop(self) {
        let MemOrchestrator {
            plans: _,
            next: _,
            asked: _,
            polled: _,
            calls: _,
            faults: _,
        } = self;
    }
}

impl MemOrchestrator {
    ghost use Rattle.site_traits.specs.MemOrchestrator.{IsNewOrchestrator};

    /// An orchestrator with this plan, on which no call was made.
    pub fn new(alloc: Global, plans: Vec<GrantPlan>) -> Result<MemOrchestrator, AllocError>
        ensures { IfOk result (IsNewOrchestrator plans.items) }
    {
        Ok(MemOrchestrator {
            plans,
            next: 0,
            asked: Log::new(alloc, CALLS, BYTES)?,
            polled: Log::new(alloc, CALLS, BYTES)?,
            calls: 0,
            faults: 0,
        })
    }

    /// How many grant requests were answered.
    pub fn asked(&self) -> usize
        ensures { result ≡ length self.now.asked.calls }
    {
        self.asked.len()
    }

    /// How many polls were answered.
    pub fn polled(&self) -> usize
        ensures { result ≡ length self.now.polled.calls }
    {
        self.polled.len()
    }

    /// How many calls failed.
    pub fn faults(&self) -> u64
        ensures { result ≡ self.now.faults }
    {
        self.faults
    }
}

// The plan's answer is heard, where it has one that fits.
fn hear_planned(plan: &GrantPlan, heard: &mut Heard) -> bool
    ensures heard { IsTrue result → answer_of plan.now ≡ Some heard.new }
    ensures none { result ≡ false → answer_of plan.now ≡ None }
{
    match plan {
        GrantPlan::Fail => false,
        GrantPlan::Raw {
            status,
            location,
            body,
        } => {
            if body.len() > HEARD_MAX {
                return false;
            }
            heard.hear(*status, location.as_ref(), body.as_slice());
            true
        }
    }
}

// One call that is put on this record: the next plan's answer is heard. Where the plan has none, where it ends or where
// the record has no room, the call fails.
fn answer(
    plans: &[GrantPlan],
    next: &mut usize,
    calls: &mut Log<()>,
    bytes: &[u8],
    heard: &mut Heard,
) -> Call
    requires { next.old ≤ length plans.now }
    ensures within { next.new ≤ length plans.now }
    ensures served { (result ≡ Call.Came) ↔ (IsSome (next_answer plans.now next.old)
        × HasRoom (length bytes.now) calls.old) }
    ensures place { next.new ≡ place_after result (next_answer plans.now next.old) next.old (length plans.now) }
    ensures room { SameRoom calls.old calls.new }
    ensures came { result ≡ Call.Came → (answers_of plans.now next.new
        ≡ answers_of plans.now next.old ++ heard.new ∷ []) × (bytes_of calls.new.calls
        ≡ bytes_of calls.old.calls ++ bytes.now ∷ []) }
    ensures failed { result ≡ Call.Failed → (answers_of plans.now next.new ≡ answers_of plans.now next.old)
        × (calls.new ≡ calls.old) }
{
    let Some(plan) = plans.get(*next) else {
        return Call::Failed;
    };
    if !hear_planned(plan, heard) {
        *next += 1;
        return Call::Failed;
    }
    if !calls.push((), bytes, &[]) {
        return Call::Failed;
    }
    *next += 1;
    Call::Came
}

impl Orchestrator for MemOrchestrator {
    ghost use Rattle.site_traits.specs.MemOrchestrator.{state_of, counts_of, RunsCall};
    ghost use Rattle.site_traits.specs.Peers.{Asks, Polls, CallCause};

    ghost tells = { Unit {0} };

    ghost state = { state_of };

    ghost counts = { counts_of };

    fn ask(&mut self, body: &[u8], heard: &mut Heard) -> Call
        ensures told { Asks body.now heard.new result (state_of self.old) (state_of self.new) }
        ensures cause { CallCause result (counts_of self.old) (counts_of self.new) }
        ensures runs { RunsCall body.now result self.old.asked self.new.asked self.old self.new }
        ensures polled { self.new.polled ≡ self.old.polled }
    {
        self.calls = self.calls.saturating_add(1);
        let answer = answer(&self.plans, &mut self.next, &mut self.asked, body, heard);
        if answer == Call::Failed {
            self.faults = self.faults.saturating_add(1);
        }
        answer
    }

    fn poll(&mut self, location: &Line, heard: &mut Heard) -> Call
        ensures told { Polls location.now heard.new result (state_of self.old) (state_of self.new) }
        ensures cause { CallCause result (counts_of self.old) (counts_of self.new) }
        ensures runs { RunsCall location.now result self.old.polled self.new.polled self.old self.new }
        ensures asked { self.new.asked ≡ self.old.asked }
    {
        self.calls = self.calls.saturating_add(1);
        let answer = answer(
            &self.plans,
            &mut self.next,
            &mut self.polled,
            location.as_bytes(),
            heard,
        );
        if answer == Call::Failed {
            self.faults = self.faults.saturating_add(1);
        }
        answer
    }
}
