// Where the program's lines go.
ghost use Rattle.std.specs.Prelude.{List, ℕ};
ghost use Rattle.site_traits.specs.Counts.{CallCounts};
ghost use Rattle.site_traits.specs.Sink.{Puts, SinkCause};

/// A put failed. The sink's count of faults rose by one in that call, or stands at its greatest value.
#[derive(Clone, Copy, Drop)]
pub struct SinkFailed;

/// Takes the lines that the program prints.
///
/// Source: own rule.
pub trait Sink {
    /// Whether sinks of this kind tell their content. Clauses on content hold where they do.
    ghost tells: { Type 0 };

    /// The bytes so far.
    ghost state: { Self → List ℕ };

    /// How often it was put to, and how often a put failed, told or not.
    ghost counts: { Self → CallCounts };

    /// Puts these bytes behind those so far: all of them, or none where it failed.
    fn put(&mut self, bytes: &[u8]) -> Result<(), SinkFailed>
        ensures told { tells → Puts bytes.now result (state self.old) (state self.new) }
        ensures cause { SinkCause (counts self.old) (counts self.new) result };
}
