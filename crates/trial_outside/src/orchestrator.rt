//! The orchestrator of a trial, in memory: it grants whatever it is asked for.
ghost use Rattle.std.specs.Prelude.{◌≡◌, IfOk, length};
ghost use Rattle.site_traits.specs.Peers.{Asks, CallCause, Polls};
ghost use Rattle.grant_desk.specs.GrantAll.{state_of as told};
ghost use Rattle.trial_outside.specs.Granted.{GrantsAll, GrantsAll-prop};

use grant_desk::GrantAll;
use site_traits::{Call, Heard, Orchestrator};
use std::alloc::{AllocError, Global};
use vnfm_base::Line;

/// The orchestrator of a trial, in memory, which tells all: it grants whatever it is asked for, as `GrantAll` does, and
/// each of its answers is the one that is given to what was asked.
///
/// Source: own rule.
pub struct TrialOrchestrator {
    inner: GrantAll,
    pub ghost granted: { GrantsAll (told inner) } by { GrantsAll-prop (told inner) },
}

impl Drop for TrialOrchestrator {
    // Written out, so that the proof of a caller calls it and doesn't take the value apart at each of its ends.
    fn drop(self) {
        let TrialOrchestrator { inner: _ } = self;
    }
}

impl TrialOrchestrator {
    ghost use Rattle.trial_outside.specs.TrialOrchestrator.{IsFreshOrchestrator, counts_of, state_of};

    /// An orchestrator that was never called. It takes all the room of its record.
    pub fn new(alloc: Global) -> Result<TrialOrchestrator, AllocError>
        ensures { IfOk result IsFreshOrchestrator }
    {
        Ok(TrialOrchestrator {
            inner: GrantAll::new(alloc)?,
        })
    }

    /// How many grant requests were answered.
    pub fn asked(&self) -> usize
        ensures { result ≡ length (state_of self.now).asked }
    {
        self.inner.asked()
    }

    /// How many calls failed.
    pub fn faults(&self) -> u64
        ensures { result ≡ (counts_of self.now).faults }
    {
        self.inner.faults()
    }
}

impl Orchestrator for TrialOrchestrator {
    ghost use Rattle.trial_outside.specs.TrialOrchestrator.{counts_of, state_of};

    ghost tells = { Unit {0} };

    ghost state = { state_of };

    ghost counts = { counts_of };

    fn ask(&mut self, body: &[u8], heard: &mut Heard) -> Call
        ensures told { Asks body.now heard.new result (state_of self.old) (state_of self.new) }
        ensures cause { CallCause result (counts_of self.old) (counts_of self.new) }
    {
        self.inner.ask(body, heard)
    }

    fn poll(&mut self, location: &Line, heard: &mut Heard) -> Call
        ensures told { Polls location.now heard.new result (state_of self.old) (state_of self.new) }
        ensures cause { CallCause result (counts_of self.old) (counts_of self.new) }
    {
        self.inner.poll(location, heard)
    }
}

#[cfg(test)]
mod tests {
    use super::*;
    use std::test::Fail;

    #[test]
    fn a_request_is_granted(rt: HostRuntime) -> Result<(), Fail> {
        let mut orchestrator = TrialOrchestrator::new(rt.alloc())?;
        let mut heard = Heard::new(rt.alloc())?;
        let answer = orchestrator.ask(br#"{"addResources":[{"id":"0"}]}"#, &mut heard);
        assert!(rt; answer == Call::Came);
        assert_eq!(rt; heard.status(), 201);
        assert_eq!(rt; orchestrator.asked(), 1);
        assert_eq!(rt; orchestrator.faults(), 0);
        Ok(())
    }
}
