//! Peers whose calls that fail are counted, for a person who asks which they are.
ghost use Rattle.std.specs.Prelude.{◌≡◌, ◌∷◌, false};
ghost use Rattle.outside_edges.specs.Jobs.{JobCall};
ghost use Rattle.site_traits.specs.Peers.{Asks, CallCause, Polls, PostCause, Posts};

use crate::faults::{PeerFaults, PeerKind};
use crate::noted_files::NotedFile;
use crate::paces::{note_act, note_fault, note_grant, note_look, note_post};
use edge_limits::Pace;
use lcm_events::{Act, Tag};
use outside_edges::Jobs;
use site_traits::{
    AbortAnswer, BeginAnswer, Call, Courier, Heard, LookAnswer, Orchestrator, PostAnswer,
};
use std::alloc::Global;
use std::cell::Cell;
use std::fs::File;
use std::rt::Files;
use vnfm_base::Line;

/// An orchestrator whose calls that fail are counted, and of which it is noted whether a grant was decided.
#[derive(Drop)]
pub struct WatchedOrchestrator<'a, O: Orchestrator + Drop> {
    alloc: Global,
    orchestrator: O,
    faults: &'a PeerFaults,
    pace: &'a Cell<Pace>,
}

impl<'a, O: Orchestrator + Drop> WatchedOrchestrator<'a, O> {
    /// This orchestrator, whose faults are counted there, and what comes of its calls noted here.
    pub fn made(
        alloc: Global,
        orchestrator: O,
        faults: &'a PeerFaults,
        pace: &'a Cell<Pace>,
    ) -> WatchedOrchestrator<'a, O>
        ensures { result.orchestrator ≡ orchestrator }
    {
        WatchedOrchestrator {
            alloc,
            orchestrator,
            faults,
            pace,
        }
    }

    fn note(&self, call: Call) {
        if let Call::Failed = call {
            self.faults.count(PeerKind::Orchestrator);
        }
    }
}

impl<'a, O: Orchestrator + Drop> Orchestrator for WatchedOrchestrator<'a, O> {
    ghost tells = { O.tells };

    ghost state = { λ w. O.state w.orchestrator };

    ghost counts = { λ w. O.counts w.orchestrator };

    fn ask(&mut self, body: &[u8], heard: &mut Heard) -> Call
        ensures told { O.tells → Asks body.now heard.new result (O.state self.old.orchestrator)
            (O.state self.new.orchestrator) }
        ensures cause { CallCause result (O.counts self.old.orchestrator) (O.counts self.new.orchestrator) }
    {
        let call = self.orchestrator.ask(body, heard);
        self.note(call);
        note_grant(self.alloc, self.pace, true, call, heard);
        call
    }

    fn poll(&mut self, location: &Line, heard: &mut Heard) -> Call
        ensures told { O.tells → Polls location.now heard.new result (O.state self.old.orchestrator)
            (O.state self.new.orchestrator) }
        ensures cause { CallCause result (O.counts self.old.orchestrator) (O.counts self.new.orchestrator) }
    {
        let call = self.orchestrator.poll(location, heard);
        self.note(call);
        note_grant(self.alloc, self.pace, false, call, heard);
        call
    }
}

/// A courier whose posts that fail are counted, and of which it is noted whether a notice was taken.
#[derive(Drop)]
pub struct WatchedCourier<'a, C: Courier + Drop> {
    courier: C,
    faults: &'a PeerFaults,
    pace: &'a Cell<Pace>,
}

impl<'a, C: Courier + Drop> WatchedCourier<'a, C> {
    /// This courier, whose faults are counted there, and what comes of its posts noted here.
    pub fn made(courier: C, faults: &'a PeerFaults, pace: &'a Cell<Pace>) -> WatchedCourier<'a, C>
        ensures { result.courier ≡ courier }
    {
        WatchedCourier {
            courier,
            faults,
            pace,
        }
    }
}

impl<'a, C: Courier + Drop> Courier for WatchedCourier<'a, C> {
    ghost tells = { C.tells };

    ghost state = { λ w. C.state w.courier };

    ghost counts = { λ w. C.counts w.courier };

    fn post(&mut self, uri: &Line, body: &[u8]) -> PostAnswer
        ensures told { C.tells → Posts uri.now body.now result (C.state self.old.courier) (C.state self.new.courier) }
        ensures cause { PostCause result (C.counts self.old.courier) (C.counts self.new.courier) }
    {
        let answer = self.courier.post(uri, body);
        note_post(self.pace, answer);
        if let PostAnswer::Failed = answer {
            self.faults.count(PeerKind::Subscriber);
        }
        answer
    }
}

/// An infrastructure whose calls that fail are counted. It stands beside a file whose writes a door is told of.
#[derive(Drop)]
pub struct WatchedJobs<'a, J: Jobs<File> + Drop> {
    jobs: J,
    faults: &'a PeerFaults,
    pace: &'a Cell<Pace>,
}

impl<'a, J: Jobs<File> + Drop> WatchedJobs<'a, J> {
    /// This infrastructure, whose faults are counted there, and what comes of its calls noted here.
    pub fn made(jobs: J, faults: &'a PeerFaults, pace: &'a Cell<Pace>) -> WatchedJobs<'a, J>
        ensures { result.jobs ≡ jobs }
    {
        WatchedJobs { jobs, faults, pace }
    }
}

impl<'a, 'f, R: Files<File = File>, J: Jobs<File> + Drop> Jobs<NotedFile<'f, R>>
    for WatchedJobs<'a, J> {
    ghost manager = { λ w. J.manager w.jobs };

    ghost calls = { λ w. J.calls w.jobs };

    fn of_manager(&mut self, number: u32)
        ensures manager { J.manager self.new.jobs ≡ number }
        ensures unasked { J.calls self.new.jobs ≡ J.calls self.old.jobs }
    {
        self.jobs.of_manager(number);
    }

    fn connect(&mut self) -> bool
        ensures vain { ⊥ → result ≡ false }
        ensures manager { J.manager self.new.jobs ≡ J.manager self.old.jobs }
        ensures asks { J.calls self.new.jobs ≡ JobCall.connecting result ∷ J.calls self.old.jobs }
    {
        let open = self.jobs.connect();
        if !open {
            self.faults.count(PeerKind::Infrastructure);
            note_fault(self.pace);
        }
        open
    }

    fn begin(&mut self, tag: &Tag, act: &Act) -> BeginAnswer
        ensures vain { ⊥ → result ≡ BeginAnswer.Failed }
        ensures manager { J.manager self.new.jobs ≡ J.manager self.old.jobs }
        ensures asks { J.calls self.new.jobs ≡ JobCall.beginning tag.now act.now result ∷ J.calls self.old.jobs }
    {
        let answer = self.jobs.begin(tag, act);
        match answer {
            BeginAnswer::Failed => {
                self.faults.count(PeerKind::Infrastructure);
                note_fault(self.pace);
            }
            BeginAnswer::Begun | BeginAnswer::Refused(_) => note_act(self.pace),
        }
        answer
    }

    fn look(&mut self, tag: &Tag) -> LookAnswer
        ensures vain { ⊥ → result ≡ LookAnswer.Failed }
        ensures manager { J.manager self.new.jobs ≡ J.manager self.old.jobs }
        ensures asks { J.calls self.new.jobs ≡ JobCall.looking tag.now result ∷ J.calls self.old.jobs }
    {
        let answer = self.jobs.look(tag);
        note_look(self.pace, &answer);
        if let LookAnswer::Failed = answer {
            self.faults.count(PeerKind::Infrastructure);
        }
        answer
    }

    fn abort(&mut self, tag: &Tag) -> AbortAnswer
        ensures vain { ⊥ → result ≡ AbortAnswer.Failed }
        ensures manager { J.manager self.new.jobs ≡ J.manager self.old.jobs }
        ensures asks { J.calls self.new.jobs ≡ JobCall.aborting tag.now result ∷ J.calls self.old.jobs }
    {
        let answer = self.jobs.abort(tag);
        match answer {
            AbortAnswer::Failed => {
                self.faults.count(PeerKind::Infrastructure);
                note_fault(self.pace);
            }
            AbortAnswer::Asked => note_act(self.pace),
        }
        answer
    }
}
