//! What went out to a peer, which only proofs read. It takes no memory, and to note it does nothing when it runs.
ghost use Rattle.std.specs.Prelude.{◌≡◌, List, [], ◌∷◌};
ghost use Rattle.std.specs.Borrow.{ftrue};
ghost use Rattle.http_peers.specs.Gone.{GoneOut};

use std::marker::Model;

/// What went out on each connection, the latest first. A clause reads it as `sent`.
///
/// Nothing ties it to anything by itself: the clause of the call that notes something does, by saying what it notes.
#[derive(Drop)]
pub struct SentLog {
    /// What went out.
    pub ghost sent: { List GoneOut },
}

impl Model for SentLog {
    ghost also_owns = { λ _. ftrue };
}

impl SentLog {
    /// Nothing.
    pub fn new() -> SentLog
        ensures { result.sent ≡ [] }
    {
        SentLog {}
    }

    /// This, and behind it what the caller's proof names by this object.
    pub fn with<T>(&self, object: &T) -> SentLog
        ghost gone: { GoneOut }
        ensures { result.sent ≡ gone ∷ self.now.sent }
    {
        SentLog {}
    }
}
