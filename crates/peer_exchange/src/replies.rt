//! Kinds of replies.
ghost use Rattle.std.specs.Prelude.{List, ℕ, Bool};
ghost use Rattle.peer_exchange.specs.Exchanges.{HasJudgedFront};

/// What bytes are, as a reply.
#[derive(Clone, Copy, PartialEq, Eq, Debug)]
pub enum Judged {
    /// A whole one.
    Whole,
    /// A part of one.
    Part,
    /// None, whatever follows.
    Never,
    /// There was no memory to say it.
    Unknown,
}

/// What judges the bytes of a reply, as they come.
pub trait Reply {
    ghost use Rattle.peer_exchange.specs.declared.replies.Judged.{Judged};

    /// These bytes were judged, or none were.
    ghost judged: { Self → List ℕ → Type 0 };

    /// What it says that all bytes of a connection so far are, where the connection has ended behind them or not.
    ghost is: { Self → Bool → List ℕ → Judged → Type 0 };

    /// What all bytes of a connection so far are. `ended` says whether the connection has ended behind them.
    fn judge(&mut self, bytes: &[u8], ended: bool) -> Judged
        requires { HasJudgedFront (judged self.old) bytes.now }
        ensures kept { judged self.new bytes.now }
        ensures is { is self.new ended bytes.now result };
}
