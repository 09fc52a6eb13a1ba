//! Doors of which it is asked whether an answer was lost.
ghost use Rattle.std.specs.Prelude.{◌≡◌, false};

use host_calls::{InStream, OutStream};
use net_calls::Stopwatch;
use outside_edges::RealDoor;
use served_edges::ServedDoor;
use site_traits::{Door, Sink};

/// A door that says whether an answer was lost on the connection at hand.
///
/// Source: own rule.
pub trait AnswerDoor: Door {
    /// Whether a write on that connection failed, as far as the door tells.
    fn write_failed(&self) -> bool
        ensures { result ≡ (Self.state self.now).conn.write_failed };
}

impl<I: InStream, O: OutStream> AnswerDoor for RealDoor<I, O> {
    fn write_failed(&self) -> bool {
        RealDoor::write_failed(self)
    }
}

/// Of a door with many connections nothing is asked of the last.
impl<'a, D: Door + Drop, T: Stopwatch + Drop, W: Sink + Drop> AnswerDoor
    for ServedDoor<'a, D, T, W> {
    fn write_failed(&self) -> bool {
        false
    }
}
