//! A standard stream as a sink.
ghost use Rattle.std.specs.Prelude.{◌≡◌, Option, length};
ghost use Rattle.std.specs.declared.io.ErrorKind.{ErrorKind};
ghost use Rattle.host_calls.specs.Streams.{TakesAll, called};

use crate::counted::{count_call, count_fault};
use host_calls::OutStream;
use site_traits::{Sink, SinkFailed};

/// A stream that takes the program's lines. A put that failed may have written a front of its bytes, so it tells
/// nothing as a sink; what its stream tells stands in the clause `out`.
#[derive(Drop)]
pub struct RealSink<O: OutStream> {
    stream: O,
    puts: u64,
    faults: u64,
}

impl<O: OutStream> RealSink<O> {
    /// A sink over this stream.
    pub fn made(stream: O) -> RealSink<O>
        ensures { result ≡ record { stream = stream; puts = 0; faults = 0 } }
    {
        RealSink {
            stream,
            puts: 0,
            faults: 0,
        }
    }
}

impl<O: OutStream> Sink for RealSink<O> {
    ghost use Rattle.std.specs.Prelude.{[]};
    ghost use Rattle.site_traits.specs.Sink.{SinkCause};
    ghost use Rattle.outside_edges.specs.Faults.{CountsOne};

    ghost tells = { ⊥ };

    ghost state = { λ _. [] };

    ghost counts = { λ s. record { calls = s.puts; faults = s.faults } };

    fn put(&mut self, bytes: &[u8]) -> Result<(), SinkFailed>
        ensures out { O.tells → TakesAll bytes.now result (O.state self.old.stream) (O.state self.new.stream) }
        ensures one { O.tells → (fault : Option ErrorKind) × (O.calls self.new.stream
            ≡ called (length bytes.now) fault (O.calls self.old.stream)) }
        ensures cause { SinkCause (record { calls = self.old.puts; faults = self.old.faults })
            (record { calls = self.new.puts; faults = self.new.faults }) result }
        ensures counted { CountsOne result self.old.faults self.new.faults }
    {
        count_call(&mut self.puts);
        match self.stream.write_all(bytes) {
            Ok(()) => Ok(()),
            Err(_) => {
                count_fault(&mut self.faults);
                Err(SinkFailed)
            }
        }
    }
}
