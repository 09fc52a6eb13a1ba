//! How often calls on peers failed, and how much of that was told.
ghost use Rattle.std.specs.Prelude.{◌≡◌, None};
ghost use Rattle.served_edges.specs.Faults.{fault_line, is_due, kind_text};

use arrayvec::ArrayString;
use itoa::Buffer;
use std::cell::Cell;

/// Milliseconds between two lines about one kind of peer.
pub const BETWEEN_LINES: u64 = 1_000;

/// A kind of peer.
#[derive(Clone, Copy, PartialEq, Eq)]
pub enum PeerKind {
    /// Those that connect.
    Client,
    /// The orchestrator, which is asked for grants.
    Orchestrator,
    /// The infrastructure.
    Infrastructure,
    /// Those to whom notifications are posted.
    Subscriber,
}

/// How often calls on peers failed since the program started, by kind. Whoever makes the calls counts them here.
#[derive(Drop)]
pub struct PeerFaults {
    client: Cell<u64>,
    orchestrator: Cell<u64>,
    infrastructure: Cell<u64>,
    subscriber: Cell<u64>,
}

impl PeerFaults {
    /// No call failed yet.
    pub fn none() -> PeerFaults {
        PeerFaults {
            client: Cell::new(0),
            orchestrator: Cell::new(0),
            infrastructure: Cell::new(0),
            subscriber: Cell::new(0),
        }
    }

    /// One more call on a peer of this kind failed. A count stays at its greatest value.
    pub fn count(&self, kind: PeerKind) {
        let counted = self.of(kind);
        counted.set(counted.get().saturating_add(1));
    }

    /// How many calls on peers of this kind failed.
    pub fn get(&self, kind: PeerKind) -> u64 {
        self.of(kind).get()
    }

    fn of(&self, kind: PeerKind) -> &Cell<u64> {
        match kind {
            PeerKind::Client => &self.client,
            PeerKind::Orchestrator => &self.orchestrator,
            PeerKind::Infrastructure => &self.infrastructure,
            PeerKind::Subscriber => &self.subscriber,
        }
    }
}

/// What was told of one kind of peer.
#[derive(Clone, Copy)]
pub struct Told {
    /// How many calls that failed.
    pub count: u64,
    /// When, in milliseconds of a stopwatch; none where nothing was told yet.
    pub at: Option<u64>,
}

impl Told {
    /// Nothing was told.
    pub fn nothing() -> Told
        ensures { (result.count ≡ 0) × (result.at ≡ None) }
    {
        Told { count: 0, at: None }
    }

    /// Whether so many calls that failed are to be told of now: there are more than were told of, and the last line is
    /// a second old.
    pub fn is_due(self, count: u64, now: u64) -> bool
        ensures { result ≡ is_due self count now }
    {
        self.count < count
            && match self.at {
                Some(at) => now.saturating_sub(at) >= BETWEEN_LINES,
                None => true,
            }
    }
}

/// The line that tells how many calls on peers of this kind failed since the program started.
pub fn fault_line(kind: PeerKind, count: u64) -> ArrayString<96>
    ensures { result.bytes ≡ fault_line kind count }
{
    let mut digits = Buffer::new();
    let mut line = ArrayString::new();
    line.push_str("vnfm: ");
    line.push_str(kind_text(kind));
    line.push_str(digits.format(count));
    line.push_str(" calls failed\n");
    line
}

/// How a kind of peer is named in front of a count.
fn kind_text(kind: PeerKind) -> &'static str
    ensures { result.now ≡ kind_text kind }
{
    match kind {
        PeerKind::Client => "connections: ",
        PeerKind::Orchestrator => "orchestrator: ",
        PeerKind::Infrastructure => "infrastructure: ",
        PeerKind::Subscriber => "subscribers: ",
    }
}
