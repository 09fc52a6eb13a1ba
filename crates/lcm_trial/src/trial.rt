//! The trial, step by step.
ghost use Rattle.std.specs.Prelude.{◌≡◌, ◌≢◌, ◌+◌, IfOk, OnOk, Err, false, true};
ghost use Rattle.lcm_trial.specs.Playing.{IsAt, TellsRoom};
ghost use Rattle.lcm_trial.specs.Stages.{Stage, accepted_with, asked_of, first_stage, requested, stepped, turned};
ghost use Rattle.lcm_trial.specs.Trial.{passes_room, tried_at, tried_of};

use crate::beginning::first_manager;
use crate::counts::{TrialFault, Tried};
use crate::fates::{Fate, count_of, standing};
use crate::requests::{draw_step, request_of};
use executor::{Manager, works_add_up, works_with_jobs_add_up};
use http_wire::Request;
use journal_core::Journal;
use lcm_api::answer;
use lcm_events::Role;
use lcm_routes::Routes;
use occ_work::turn;
use std::alloc::{AllocError, Global};
use trial_outside::{TrialOrchestrator, TrialSite};
use vnfm_base::Moment;

/// Bytes that the journal of a trial may have, with its closed gate.
const ROOM: u64 = 67_108_864;

/// The least status that is none of success.
///
/// Source: RFC 9110 15 (Status Codes).
const REFUSED: u16 = 400;

/// A trial so far: its manager, what is around that, the number that was drawn last, and how many requests were made
/// and accepted.
pub struct Trial {
    manager: Manager<TrialSite>,
    site: TrialSite,
    orchestrator: TrialOrchestrator,
    routes: Routes,
    drawn: u64,
    requests: u32,
    accepted: u32,
}

impl Drop for Trial {
    // Written out, so that the proof of a caller calls it and doesn't take the value apart at each of its ends.
    fn drop(self) {
        let Trial {
            manager: _,
            site: _,
            orchestrator: _,
            routes: _,
            drawn: _,
            requests: _,
            accepted: _,
        } = self;
    }
}

/// Makes the trial of this start and so many steps, and counts what it came to, which is a fact of these two numbers
/// alone.
///
/// A trial is played over a site and an orchestrator in memory, at moment 0, by manager 1, with one descriptor and no
/// subscription. Each step draws a wish and a live instance, makes the request of that wish as the orchestrator, where
/// there is one, and then three turns (docs/FORMATS.md, "The trial").
///
/// Refusals: `Room` only where the trial passes its room, 67,108,864 bytes; `Memory`. Without `Memory` the answer is
/// `Room` exactly where it does.
/// Source: own rule, docs/FORMATS.md, "The trial".
pub fn make_trial(alloc: Global, start: u64, count: u32) -> Result<Tried, TrialFault>
    ensures tried { IfOk result (λ t. (t ≡ tried_of start count) × (passes_room start count ≡ false)) }
    ensures room { result ≡ Err TrialFault.Room → passes_room start count ≡ true }
{
    let mut trial = Trial::new(alloc, start)?;
    trial.check_room(alloc)?;
    let mut made = 0;
    while made < count {
        trial.step(alloc)?;
        trial.check_room(alloc)?;
        made += 1;
    }
    Ok(trial.tried()?)
}

impl Trial {
    /// The trial of this start before its first step.
    fn new(alloc: Global, start: u64) -> Result<Trial, TrialFault>
        ensures at { IfOk result (IsAt (first_stage start)) }
        ensures short { result ≢ Err TrialFault.Room }
    {
        let mut site = TrialSite::new(alloc)?;
        let manager = first_manager(alloc, &mut site)?;
        Ok(Trial {
            manager,
            site,
            orchestrator: TrialOrchestrator::new(alloc)?,
            routes: Routes::new(alloc)?,
            drawn: start,
            requests: 0,
            accepted: 0,
        })
    }

    /// Makes a step: a request, where there is one, and three turns.
    fn step(&mut self, alloc: Global) -> Result<(), TrialFault>
        requires at { (s : Stage) × IsAt s self.old }
        ensures at { (s : Stage) → IsAt s self.old → OnOk result (IsAt (stepped s) self.new) }
        ensures short { result ≢ Err TrialFault.Room }
    {
        self.ask(alloc)?;
        self.turn(alloc)?;
        self.turn(alloc)?;
        self.turn(alloc)
    }

    /// Draws, and makes the request of the wish that was drawn, where there is one.
    fn ask(&mut self, alloc: Global) -> Result<(), TrialFault>
        requires at { (s : Stage) × IsAt s self.old }
        ensures at { (s : Stage) → IsAt s self.old → OnOk result (IsAt (asked_of s) self.new) }
        ensures short { result ≢ Err TrialFault.Room }
    {
        let draw = draw_step(&self.manager, self.drawn);
        self.drawn = draw.drawn;
        match request_of(alloc, &self.manager, draw.wish, draw.chosen)? {
            Some(request) => self.make_request(alloc, &request),
            None => Ok(()),
        }
    }

    /// Makes a request as the orchestrator.
    fn make_request(&mut self, alloc: Global, request: &Request) -> Result<(), TrialFault>
        requires at { (s : Stage) × IsAt s self.old }
        ensures at { (s : Stage) → IsAt s self.old → OnOk result (IsAt (requested s request.now) self.new) }
        ensures short { result ≢ Err TrialFault.Room }
    {
        works_add_up::<TrialSite>();
        let answered = answer(
            alloc,
            &mut self.manager,
            &mut self.site,
            &self.routes,
            Role::Orchestrator,
            request,
            Moment::of(0),
        );
        let Ok(reply) = answered else {
            return Err(TrialFault::Memory);
        };
        self.count(reply.status)
    }

    /// Counts a request that was answered with this status.
    fn count(&mut self, status: u16) -> Result<(), TrialFault>
        ensures counts { OnOk result (self.new ≡ record self.old {
          requests = self.old.requests + 1;
          accepted = accepted_with status self.old.accepted;
        }) }
        ensures short { result ≢ Err TrialFault.Room }
    {
        let Some(requests) = self.requests.checked_add(1) else {
            return Err(TrialFault::Memory);
        };
        self.requests = requests;
        if status < REFUSED {
            let Some(accepted) = self.accepted.checked_add(1) else {
                return Err(TrialFault::Memory);
            };
            self.accepted = accepted;
        }
        Ok(())
    }

    /// Makes a turn.
    fn turn(&mut self, alloc: Global) -> Result<(), TrialFault>
        requires at { (s : Stage) × IsAt s self.old }
        ensures at { (s : Stage) → IsAt s self.old → OnOk result (IsAt (turned s) self.new) }
        ensures short { result ≢ Err TrialFault.Room }
    {
        works_with_jobs_add_up::<TrialSite>();
        let turned = turn(
            alloc,
            &mut self.manager,
            &mut self.site,
            &mut self.orchestrator,
            Moment::of(0),
        );
        let Ok(_) = turned else {
            return Err(TrialFault::Memory);
        };
        if self.site.vim_faults() > 0 {
            return Err(TrialFault::Memory);
        }
        if self.orchestrator.faults() > 0 {
            return Err(TrialFault::Memory);
        }
        Ok(())
    }

    /// Refuses the stage where the journal is full. A file that isn't longer than the room holds a journal that isn't;
    /// that of any other is read anew, to see where its closed gate stands.
    fn check_room(&mut self, alloc: Global) -> Result<(), TrialFault>
        requires at { (s : Stage) × IsAt s self.old }
        ensures same { OnOk result (self.new ≡ self.old) }
        ensures room { (s : Stage) → IsAt s self.old → TellsRoom result s }
    {
        if self.site.size() as u64 <= ROOM {
            return Ok(());
        }
        let Ok(journal) = Journal::load(alloc, &mut self.site) else {
            return Err(TrialFault::Memory);
        };
        if journal.end() + journal.saved() < ROOM {
            return Err(TrialFault::Memory);
        }
        Err(TrialFault::Room)
    }

    /// What the trial came to so far.
    fn tried(&self) -> Result<Tried, AllocError>
        requires at { (s : Stage) × IsAt s self.now }
        ensures { (s : Stage) → IsAt s self.now → IfOk result (λ t. t ≡ tried_at s) }
    {
        Ok(Tried {
            requests: self.requests,
            accepted: self.accepted,
            refused: self.requests.saturating_sub(self.accepted),
            completed: count_of(&self.manager, Fate::Completed),
            failed: count_of(&self.manager, Fate::Failed),
            rolled_back: count_of(&self.manager, Fate::RolledBack),
            ongoing: count_of(&self.manager, Fate::Ongoing),
            jobs: self.site.jobs() as u64,
            standing: standing(&self.manager)?,
        })
    }
}

#[cfg(test)]
mod tests {
    use super::*;

    /// The numbers of a trial, in the order of its lines.
    fn numbers(tried: Tried) -> [u64; 9] {
        [
            tried.requests as u64,
            tried.accepted as u64,
            tried.refused as u64,
            tried.completed,
            tried.failed,
            tried.rolled_back,
            tried.ongoing,
            tried.jobs,
            tried.standing,
        ]
    }

    #[test]
    fn a_trial_comes_to_its_numbers(rt: HostRuntime) {
        let trials = [
            (2, 1, [1, 1, 0, 0, 0, 0, 0, 0, 0]),
            (0, 1, [0; 9]),
            (5, 0, [0; 9]),
            (1, 100, [82, 24, 58, 2, 0, 1, 2, 45, 16]),
        ];
        for (start, count, want) in trials {
            let tried = make_trial(rt.alloc(), start, count).expect(&rt, "a trial");
            assert_eq!(rt; numbers(tried), want, "start {start}, count {count}");
        }
    }
}
