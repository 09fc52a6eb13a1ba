// The orchestrator that is asked for grants.
ghost use Rattle.site_traits.specs.Counts.{CallCounts};
ghost use Rattle.site_traits.specs.Peers.{OrchestratorState, Asks, Polls, CallCause};

use crate::heard::Heard;
use vnfm_base::Line;

/// Whether an answer came.
#[derive(Clone, Copy, PartialEq, Eq)]
pub enum Call {
    /// It stands in the `Heard` that was lent.
    Came,
    /// None came, or one that is too long. The orchestrator's count of faults rose by one.
    Failed,
}

/// The orchestrator that is asked for grants.
///
/// Source: SOL 003 clause 9.
pub trait Orchestrator {
    /// Whether orchestrators of this kind tell their content. Clauses on content hold where they do.
    ghost tells: { Type 0 };

    /// What the orchestrator tells.
    ghost state: { Self → OrchestratorState };

    /// How often it was called, and how often a call failed, told or not.
    ghost counts: { Self → CallCounts };

    /// Posts a grant request with this body.
    ///
    /// Where it failed, `heard` holds nothing of use.
    /// Source: SOL 003 9.4.2.
    fn ask(&mut self, body: &[u8], heard: &mut Heard) -> Call
        ensures told { tells → Asks body.now heard.new result (state self.old) (state self.new) }
        ensures cause { CallCause result (counts self.old) (counts self.new) };

    /// Gets the grant at this location.
    ///
    /// Where it failed, `heard` holds nothing of use.
    /// Source: SOL 003 9.4.3.
    fn poll(&mut self, location: &Line, heard: &mut Heard) -> Call
        ensures told { tells → Polls location.now heard.new result (state self.old) (state self.new) }
        ensures cause { CallCause result (counts self.old) (counts self.new) };
}
