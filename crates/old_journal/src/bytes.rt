// The bytes of a part of the site's file.
ghost use Rattle.std.specs.Prelude.{◌≡◌, ◌≤◌, ◌+◌, length, take, drop, OnOk};
ghost use Rattle.site_traits.specs.Counts.{DiskCause};
ghost use Rattle.site_traits.specs.Site.{Reads};

use site_traits::{DiskFailed, Site};

/// Puts so many bytes from this place on to the front of the buffer.
pub fn bytes_at<S: Site>(
    site: &mut S,
    at: u64,
    size: usize,
    buffer: &mut [u8],
) -> Result<(), DiskFailed>
    requires within { S.tells → at + size ≤ length (S.state site.old).image }
    requires room { size ≤ length buffer.old }
    ensures bytes { S.tells → OnOk result (take size buffer.new ≡ take size (drop at (S.state site.old).image)) }
    ensures told { S.tells → Reads (S.state site.old) (S.state site.new) }
    ensures cause { DiskCause (S.counts site.old) (S.counts site.new) result }
{
    site.read_at(at, &mut buffer[..size])
}
