//! Calls on a peer, counted.
ghost use Rattle.std.specs.Prelude.{◌≡◌};
ghost use Rattle.site_traits.specs.Counts.{one_more};

/// One more. A count stays at its greatest value.
pub fn count_one(count: &mut u64)
    ensures { count.new ≡ one_more count.old }
{
    *count = count.saturating_add(1);
}
