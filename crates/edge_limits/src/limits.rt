//! The limits, in milliseconds, and how long a call may wait under them.
ghost use Rattle.std.specs.Prelude.{◌≡◌, ◌≤◌, ◌<◌, ◌^◌, IfSome};
ghost use Rattle.edge_limits.specs.Waits.{left, shorter};

/// For which a client's connection may be idle between two requests: a proxy keeps its own for 60,000.
pub const KEPT: u64 = 75_000;

/// In which a request has to be whole: 1 MiB at 1 Mbit/s takes 8,000.
pub const WITHIN: u64 = 30_000;

/// For which a client may take no byte of an answer.
pub const STUCK: u64 = 10_000;

/// For which what still comes behind the last answer is dropped, so that the client reads that answer.
pub const LINGER: u64 = 500;

/// Bytes of a client that are held while its request isn't whole. Longer requests have places of their own.
pub const HELD: usize = 65_536;

/// Places for requests that are longer than that: each may take some 8 MiB.
pub const LONG_REQUESTS: usize = 8;

/// Requests that go first where a round is due, so that a round costs a client little.
pub const LATE_REQUESTS: u32 = 32;

/// For which requests may go first where a round is due.
pub const LATE: u64 = 5;

/// Requests that are gathered into one connection: less than a connection has, so that the last tells no client to
/// close.
pub const GATHERED: u32 = 60_000;

/// Between two gathered connections that end for what can't be fed in them, while a pause runs: each costs a round, and
/// so a try of what fails.
pub const APART: u64 = 1_000;

/// For which nobody is let in where there is no descriptor or no memory for one more: the listener has one, so that a
/// wait there would be none.
pub const SPENT: u64 = 100;

/// Of the longest wait for clients.
pub const LONGEST: u64 = 1_000;

/// Connections that one wait of a peer may be for.
pub const WAITING: usize = 64;

/// Bytes of the largest read from a client.
pub const PIECE: usize = 65_536;

/// In which a peer has to take a connection.
pub const CONNECT: u32 = 1_000;

/// The limits of one exchange with a peer.
#[derive(Clone, Copy, PartialEq, Eq, Debug)]
pub struct Exchange {
    /// For which the peer may be silent, or take no byte.
    pub silence: u64,
    /// In which the exchange has to be over.
    pub whole: u64,
}

/// Those of an infrastructure: a call is short, and each turn waits for it.
pub const INFRASTRUCTURE: Exchange = Exchange {
    silence: 2_000,
    whole: 5_000,
};

/// Those of the end of a connection to an infrastructure on which a call failed, before another is opened: the reply
/// that came late, and then the end.
pub const ENDING: Exchange = Exchange {
    silence: 1_000,
    whole: 1_000,
};

/// Those of an orchestrator: no turn may stand still for longer.
pub const ORCHESTRATOR: Exchange = Exchange {
    silence: 5_000,
    whole: 5_000,
};

/// Those of a post of a notice.
pub const POST: Exchange = Exchange {
    silence: 5_000,
    whole: 5_000,
};

/// The shorter of two times; none where one of them is over.
fn shorter(one: u64, other: u64) -> Option<u32>
    ensures value { one < 2 ^ 32 → result ≡ shorter one other }
    ensures some { IfSome result (λ n. 1 ≤ n) }
{
    match u32::try_from(one.min(other)) {
        Ok(0) | Err(_) => None,
        Ok(wait) => Some(wait),
    }
}

/// What is left now of a time that began then.
fn left(whole: u64, began: u64, now: u64) -> u64
    ensures { result ≡ left whole began now }
{
    whole.saturating_sub(now.saturating_sub(began))
}

/// How long a call of an exchange that began then may wait now; none where its time is over.
pub fn exchange_limit(limits: Exchange, began: u64, now: u64) -> Option<u32>
    requires { limits.silence < 2 ^ 32 }
    ensures value { result ≡ shorter limits.silence (left limits.whole began now) }
    ensures some { IfSome result (λ n. 1 ≤ n) }
{
    shorter(limits.silence, left(limits.whole, began, now))
}
