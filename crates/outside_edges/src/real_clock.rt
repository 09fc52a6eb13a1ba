//! The machine's clock.
ghost use Rattle.std.specs.Prelude.{◌≡◌};
ghost use Rattle.site_traits.specs.Counts.{one_more};
ghost use Rattle.outside_edges.specs.Clock.{millis, moment_after};

use host_calls::TimeOfDay;
use site_traits::Clock;
use std::time::Duration;

/// The machine's clock. Where it can't be read, it stands where it last stood, at first at 0.
#[derive(Drop)]
pub struct RealClock<T: TimeOfDay> {
    time: T,
    last: u64,
}

impl<T: TimeOfDay> RealClock<T> {
    /// The clock of this time of day.
    pub fn made(time: T) -> RealClock<T>
        ensures { result ≡ record { time = time; last = 0 } }
    {
        RealClock { time, last: 0 }
    }
}

impl<T: TimeOfDay> Clock for RealClock<T> {
    ghost use Rattle.std.specs.Prelude.{[]};

    ghost tells = { ⊥ };

    ghost state = { λ _. [] };

    fn now(&mut self) -> u64
        ensures moment { T.tells → result ≡ moment_after (T.reading self.old.time) self.old.last }
        ensures last { self.new.last ≡ result }
        ensures one { T.tells → T.calls self.new.time ≡ one_more (T.calls self.old.time) }
    {
        if let Some(since) = self.time.since_1970() {
            self.last = millis_of(since);
        }
        self.last
    }
}

/// How many whole milliseconds a duration has, as far as a u64 counts.
fn millis_of(since: Duration) -> u64
    ensures { result ≡ millis since }
{
    u64::try_from(since.as_millis()).unwrap_or(u64::MAX)
}
