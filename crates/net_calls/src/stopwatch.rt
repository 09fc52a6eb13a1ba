//! How much time has passed.
ghost use Rattle.std.specs.Prelude.{◌≡◌, Option, ℕ};

use std::time::{Clock, Instant};

/// What says how much time has passed since some moment before.
///
/// Source: std's `Instant`.
pub trait Stopwatch {
    /// Whether stopwatches of this kind tell what they are about to show. Clauses on that hold where they do.
    ghost tells: { Type 0 };

    /// The milliseconds that it shows next.
    ghost shows: { Self → Option ℕ };

    /// Those that it showed last.
    ghost shown: { Self → Option ℕ };

    /// The milliseconds since then; none where the machine's clock can't be read.
    fn millis(&mut self) -> Option<u64>
        ensures told { tells → result ≡ shows self.old }
        ensures last { tells → shown self.new ≡ result };
}

/// The machine's monotonic clock.
#[derive(Drop)]
pub struct StdStopwatch<'a, R: Clock> {
    rt: &'a R,
    start: Option<Instant>,
}

impl<'a, R: Clock> StdStopwatch<'a, R> {
    /// One that starts now.
    pub fn of(rt: &'a R) -> StdStopwatch<'a, R> {
        StdStopwatch {
            rt,
            start: Instant::now(rt).ok(),
        }
    }
}

impl<'a, R: Clock> Stopwatch for StdStopwatch<'a, R> {
    ghost use Rattle.std.specs.Prelude.{None};

    ghost tells = { ⊥ };

    ghost shows = { λ _. None };

    ghost shown = { λ _. None };

    fn millis(&mut self) -> Option<u64> {
        let passed = Instant::now(self.rt).ok()?.duration_since(self.start?);
        Some(u64::try_from(passed.as_millis()).unwrap_or(u64::MAX))
    }
}
