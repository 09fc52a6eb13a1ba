// A clock that gives the values that it is set to.
ghost use Rattle.std.specs.Prelude.{◌≡◌, ℕ, List, IfOk};
ghost use Rattle.site_traits.specs.SetClock.{given, value_at};

use crate::clock::Clock;
use std::alloc::{AllocError, Global};

/// A clock that gives these values in order and keeps to the last one; with no value it gives 0.
///
/// It keeps the number of its calls alone, from which the values that it gave follow.
#[derive(Drop)]
pub struct SetClock {
    values: Vec<u64>,
    calls: u64,
}

impl SetClock {
    ghost use Rattle.site_traits.specs.SetClock.{IsSet};

    /// A clock with these values, which was not read yet.
    pub fn new(_alloc: Global, values: Vec<u64>) -> Result<SetClock, AllocError>
        ensures { IfOk result (IsSet values.items) }
    {
        Ok(SetClock { values, calls: 0 })
    }

    /// How often it was read.
    pub fn calls(&self) -> u64
        ensures { result ≡ self.now.calls }
    {
        self.calls
    }
}

// The value that the clock gives after so many calls.
fn value_after(values: &[u64], calls: u64) -> u64
    ensures { result ≡ value_at values.now calls }
{
    if values.is_empty() {
        return 0;
    }
    let last = values.len() - 1;
    if calls < last as u64 {
        values[calls as usize]
    } else {
        values[last]
    }
}

impl Clock for SetClock {
    ghost use Rattle.site_traits.specs.SetClock.{given};

    ghost tells = { Unit {0} };

    ghost state = { λ c. given c.values.items c.calls };

    fn now(&mut self) -> u64 {
        let value = value_after(&self.values, self.calls);
        self.calls = self.calls.saturating_add(1);
        value
    }
}
