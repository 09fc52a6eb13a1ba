// Calls of the site that belong together, each with the contract of one call.
ghost use Rattle.std.specs.Prelude.{◌≤◌, length};
ghost use Rattle.site_traits.specs.Counts.{Asks};
ghost use Rattle.journal_core.specs.Asking.{through};
ghost use Rattle.site_traits.specs.Site.{WritesThrough};

use site_traits::{DiskFailed, Site};

/// Writes these bytes at this place, and syncs.
pub fn write_through<S: Site>(site: &mut S, at: u64, bytes: &[u8]) -> Result<(), DiskFailed>
    requires { S.tells → at ≤ length (S.state site.old).image }
    ensures told { S.tells → WritesThrough at bytes.now result (S.state site.old) (S.state site.new) }
    ensures asks { Asks (through 1) result (S.counts site.old) (S.counts site.new) }
{
    site.write_at(at, bytes)?;
    site.sync()
}
