// The clock.
ghost use Rattle.std.specs.Prelude.{List, ℕ};
ghost use Rattle.site_traits.specs.Clock.{Gives};

/// A clock that gives milliseconds since 1970-01-01T00:00:00Z. It may go back.
///
/// Source: own rule.
pub trait Clock {
    /// Whether clocks of this kind tell the values that they gave. Clauses on these hold where they do.
    ghost tells: { Type 0 };

    /// The values given, the oldest first.
    ghost state: { Self → List ℕ };

    /// The time. It always answers.
    fn now(&mut self) -> u64
        ensures told { tells → Gives result (state self.old) (state self.new) };
}
