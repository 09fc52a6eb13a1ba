//! Calls of the real thing, counted.
ghost use Rattle.std.specs.Prelude.{◌≡◌, ◌≤◌};
ghost use Rattle.site_traits.specs.Counts.{one_more};

/// One call more. A count stays at its greatest value.
pub fn count_call(calls: &mut u64)
    ensures { calls.new ≡ one_more calls.old }
{
    *calls = calls.saturating_add(1);
}

/// One failure more. A count stays at its greatest value.
pub fn count_fault(faults: &mut u64)
    ensures later { faults.old ≤ faults.new }
    ensures one { faults.new ≡ one_more faults.old }
{
    *faults = faults.saturating_add(1);
}
