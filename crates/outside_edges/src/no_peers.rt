//! An orchestrator and a courier that can't be had: each call fails and counts.
ghost use Rattle.std.specs.Prelude.{◌≡◌};
ghost use Rattle.site_traits.specs.Counts.{one_more};
ghost use Rattle.outside_edges.specs.Faults.{counted};
ghost use Rattle.site_traits.specs.Peers.{OrchestratorState, Post, CallCause, PostCause};

use crate::counted::count_fault;
use site_traits::{Call, Courier, Heard, Orchestrator, PostAnswer};
use vnfm_base::Line;

/// An orchestrator that is never reached.
#[derive(Drop)]
pub struct NoOrchestrator {
    faults: u64,
}

impl NoOrchestrator {
    /// One that no call was made on.
    pub fn made() -> NoOrchestrator
        ensures { result.faults ≡ 0 }
    {
        NoOrchestrator { faults: 0 }
    }
}

impl Orchestrator for NoOrchestrator {
    ghost use Rattle.std.specs.Prelude.{[]};

    ghost tells = { ⊥ };

    ghost state = { λ _. record { answers = []; asked = []; polled = [] } };

    ghost counts = { λ o. counted o.faults };

    fn ask(&mut self, _body: &[u8], _heard: &mut Heard) -> Call
        ensures fails { result ≡ Call.Failed }
        ensures counted { self.new.faults ≡ one_more self.old.faults }
        ensures cause { CallCause result (counted self.old.faults) (counted self.new.faults) }
    {
        count_fault(&mut self.faults);
        Call::Failed
    }

    fn poll(&mut self, _location: &Line, _heard: &mut Heard) -> Call
        ensures fails { result ≡ Call.Failed }
        ensures counted { self.new.faults ≡ one_more self.old.faults }
        ensures cause { CallCause result (counted self.old.faults) (counted self.new.faults) }
    {
        count_fault(&mut self.faults);
        Call::Failed
    }
}

/// A courier that reaches nobody.
#[derive(Drop)]
pub struct NoCourier {
    faults: u64,
}

impl NoCourier {
    /// One that no call was made on.
    pub fn made() -> NoCourier
        ensures { result.faults ≡ 0 }
    {
        NoCourier { faults: 0 }
    }
}

impl Courier for NoCourier {
    ghost use Rattle.std.specs.Prelude.{[]};

    ghost tells = { ⊥ };

    ghost state = { λ _. [] };

    ghost counts = { λ c. counted c.faults };

    fn post(&mut self, _uri: &Line, _body: &[u8]) -> PostAnswer
        ensures fails { result ≡ PostAnswer.Failed }
        ensures counted { self.new.faults ≡ one_more self.old.faults }
        ensures cause { PostCause result (counted self.old.faults) (counted self.new.faults) }
    {
        count_fault(&mut self.faults);
        PostAnswer::Failed
    }
}
