//! The time of day.
ghost use Rattle.std.specs.Prelude.{◌≡◌, ℕ, Option};
ghost use Rattle.std.specs.declared.time.Duration.{Duration};
ghost use Rattle.site_traits.specs.Counts.{one_more};

use std::time::{Clock as TimeSource, Duration, SystemTime, UNIX_EPOCH};

/// What says how long ago 1970 began.
///
/// Source: std's `SystemTime`.
pub trait TimeOfDay {
    /// Whether sources of this kind tell what they are about to say. Clauses on that hold where they do.
    ghost tells: { Type 0 };

    /// What it says next.
    ghost reading: { Self → Option Duration };

    /// How often it was asked, as far as a u64 counts.
    ghost calls: { Self → ℕ };

    /// How long ago 1970-01-01T00:00:00Z was, where that can be had and is past.
    fn since_1970(&mut self) -> Option<Duration>
        ensures told { tells → result ≡ reading self.old }
        ensures one { tells → calls self.new ≡ one_more (calls self.old) };
}

/// The machine's clock.
#[derive(Drop)]
pub struct StdTime<'a, R: TimeSource> {
    rt: &'a R,
}

impl<'a, R: TimeSource> StdTime<'a, R> {
    /// The clock of this runtime.
    pub fn of(rt: &'a R) -> StdTime<'a, R> {
        StdTime { rt }
    }
}

impl<'a, R: TimeSource> TimeOfDay for StdTime<'a, R> {
    ghost use Rattle.std.specs.Prelude.{None};

    ghost tells = { ⊥ };

    ghost reading = { λ _. None };

    ghost calls = { λ _. 0 };

    fn since_1970(&mut self) -> Option<Duration> {
        SystemTime::now(self.rt)
            .ok()?
            .duration_since(UNIX_EPOCH)
            .ok()
    }
}
