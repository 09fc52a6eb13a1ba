//! The calls on jobs that only proofs read. They take no memory, and to note one does nothing when it runs.
ghost use Rattle.std.specs.Prelude.{◌≡◌, List, [], ◌∷◌};
ghost use Rattle.std.specs.Borrow.{ftrue};
ghost use Rattle.outside_edges.specs.Jobs.{JobCall};

use std::marker::Model;

/// The calls that were made on jobs, with their answers, the latest first. A clause reads them as `calls`.
///
/// Nothing ties them to anything by itself: the clause of the call that notes one does, by saying which it notes.
#[derive(Drop)]
pub struct JobLog {
    /// The calls.
    pub ghost calls: { List JobCall },
}

impl Model for JobLog {
    ghost also_owns = { λ _. ftrue };
}

impl JobLog {
    /// No call.
    pub fn new() -> JobLog
        ensures { result.calls ≡ [] }
    {
        JobLog {}
    }

    /// These calls, and behind them one more, which the caller's proof names by this object.
    pub fn with<T>(&self, object: &T) -> JobLog
        ghost call: { JobCall }
        ensures { result.calls ≡ call ∷ self.now.calls }
    {
        JobLog {}
    }
}
