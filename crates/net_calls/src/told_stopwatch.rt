//! A stopwatch in memory.
ghost use Rattle.std.specs.Prelude.{◌≡◌, ◌+◌, ◌-◌, ◌^◌, Some, min};

use crate::stopwatch::Stopwatch;

/// A stopwatch that goes on by so many milliseconds each time that it is looked at.
#[derive(Drop)]
pub struct StepWatch {
    now: u64,
    step: u64,
}

impl StepWatch {
    /// One that stands at `now`, and goes on by `step` a look.
    pub fn of(now: u64, step: u64) -> StepWatch
        ensures { (result.now ≡ now) × (result.step ≡ step) }
    {
        StepWatch { now, step }
    }
}

impl Stopwatch for StepWatch {
    ghost use Rattle.std.specs.Prelude.{◌+◌, ◌-◌, ◌^◌, Some, min};

    ghost tells = { Unit {0} };

    ghost shows = { λ w. Some (min (w.now + w.step) (2 ^ 64 - 1)) };

    ghost shown = { λ w. Some w.now };

    fn millis(&mut self) -> Option<u64>
        ensures told { Unit {0} → result ≡ Some (min (self.old.now + self.old.step) (2 ^ 64 - 1)) }
        ensures last { Unit {0} → Some self.new.now ≡ result }
        ensures on { self.new.now ≡ min (self.old.now + self.old.step) (2 ^ 64 - 1) }
        ensures step { self.new.step ≡ self.old.step }
    {
        self.now = self.now.saturating_add(self.step);
        Some(self.now)
    }
}
