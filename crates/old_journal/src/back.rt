// The reading back of one record of a file of format 1, from the nearest place that the journal knows.
ghost use Rattle.std.specs.Prelude.{◌≡◌, ◌≤◌, ◌<◌, ◌+◌, ◌-◌, ◌*◌, ◌++◌, List, ℕ, IfOk, IfSome, Some, Result, IsTrue};
ghost use Rattle.std.specs.Prelude.{◌↔◌, length, take, drop, get_or, []};
ghost use Rattle.site_traits.specs.Counts.{DiskCause};
ghost use Rattle.site_traits.specs.Site.{Reads};
ghost use Rattle.old_journal.specs.File.{framed, records, size};
ghost use Rattle.journal_records.specs.File.{IsRecord};
ghost use Rattle.journal_records.specs.declared.limits.TheConstants.{MAX_RECORD};
ghost use Rattle.old_journal.specs.Marks.{IsMark};
ghost use Rattle.old_journal.specs.Back.{HasAt, FitsAt, HasRecord, IsFound};

use crate::bytes::bytes_at;
use crate::marks::Mark;
use journal_records::MAX_RECORD;
use site_traits::{DiskFailed, Site};

/// Reads record n, from 1, to the front of the buffer, and gives its place and its size; None where the file has none.
pub fn record_from<S: Site>(
    site: &mut S,
    from: Mark,
    n: u64,
    end: u64,
    buffer: &mut [u8],
) -> Result<Option<(u64, usize)>, DiskFailed>
    requires before { from.before < n }
    requires near { (n - 1 - from.before) * 196608 ≤ end }
    requires small { end < 268435456 }
    requires room { MAX_RECORD ≤ length buffer.old }
    requires told { S.tells → HasRecord n end (S.state site.old).image
        × IsMark (records (S.state site.old).image) from }

    ensures record_is { S.tells → IfOk result (λ found. IsFound n (records (S.state site.old).image) found buffer.new) }
    ensures fits { IfOk result (λ found. IfSome found (λ f. FitsAt f.0 end f.1)) }
    ensures kept { length buffer.new ≡ length buffer.old }
    ensures told { S.tells → Reads (S.state site.old) (S.state site.new) }
    ensures cause { DiskCause (S.counts site.old) (S.counts site.new) result }
{
    let Some(place) = place_of(site, from, n, end)? else {
        return Ok(None);
    };
    let Some(size) = size_at(site, place, end)? else {
        return Ok(None);
    };
    bytes_at(site, place + 5, size as usize, buffer)?;
    Ok(Some((place, size as usize)))
}

// The place of record n, or None where no record stands on the way there. It reads a head for each record between the
// kept place and record n: by `near` at most 1,365 of them, one for each 196,608 bytes of the file.
fn place_of<S: Site>(site: &mut S, from: Mark, n: u64, end: u64) -> Result<Option<u64>, DiskFailed>
    requires before { from.before < n }
    requires near { (n - 1 - from.before) * 196608 ≤ end }
    requires small { end < 268435456 }
    requires told { S.tells → HasRecord n end (S.state site.old).image
        × IsMark (records (S.state site.old).image) from }

    ensures place { S.tells → IfOk result (λ p. p ≡ Some (size (take (n - 1) (records (S.state site.old).image)))) }
    ensures told { S.tells → Reads (S.state site.old) (S.state site.new) }
    ensures cause { DiskCause (S.counts site.old) (S.counts site.new) result }
{
    let mut place = from.place;
    for _ in from.before..n - 1 {
        match size_at(site, place, end)? {
            Some(size) => place += 5 + size as u64,
            None => return Ok(None),
        }
    }
    Ok(Some(place))
}

// The size of the record at this place, or None where none stands there that ends at or before `end`.
fn size_at<S: Site>(site: &mut S, place: u64, end: u64) -> Result<Option<u32>, DiskFailed>
    requires small { end < 268435456 }
    requires told { S.tells → (bytes : List ℕ) × HasAt place end bytes (S.state site.old).image }

    ensures size { S.tells → (bytes : List ℕ) → HasAt place end bytes (S.state site.old).image
        → IfOk result (λ n. n ≡ Some (length bytes)) }
    ensures fits { IfOk result (λ found. IfSome found (FitsAt place end)) }
    ensures told { S.tells → Reads (S.state site.old) (S.state site.new) }
    ensures cause { DiskCause (S.counts site.old) (S.counts site.new) result }
{
    if place >= end {
        return Ok(None);
    }
    let mut head = [0u8; 5];
    site.read_at(place, &mut head)?;
    Ok(size_of(head, place, end))
}

// The size of the record that begins with these bytes.
fn size_of(head: [u8; 5], place: u64, end: u64) -> Option<u32>
    requires small { end < 268435456 }
    requires before { place < end }
    ensures size { (bytes rest : List ℕ) → IsRecord bytes → head ≡ take 5 (framed bytes ++ rest)
        → place + 5 + length bytes ≤ end → result ≡ Some (length bytes) }
    ensures fits { IfSome result (FitsAt place end) }
{
    if head[0] != 1 {
        return None;
    }
    let size = u32::from_be_bytes([head[1], head[2], head[3], head[4]]);
    if fits_at(place, end, size) {
        Some(size)
    } else {
        None
    }
}

// Whether a record of this size at this place ends at or before `end`.
fn fits_at(place: u64, end: u64, size: u32) -> bool
    requires small { end < 268435456 }
    requires before { place < end }
    ensures { IsTrue result ↔ FitsAt place end size }
{
    1 <= size && size as usize <= MAX_RECORD && place + 5 + size as u64 <= end
}
