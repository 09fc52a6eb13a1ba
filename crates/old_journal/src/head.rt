// What stands at the place of a gate in a file of format 1.
ghost use Rattle.std.specs.Prelude.{◌≡◌, ◌≤◌, ◌<◌, ◌↔◌, ◌+◌, ◌^◌, ℕ, List, IsTrue, IfOk, length, take, drop};
ghost use Rattle.site_traits.specs.Counts.{DiskCause};
ghost use Rattle.site_traits.specs.Site.{Reads};
ghost use Rattle.old_journal.specs.Head.{HeadIs, HeadEnds, EndsWithin};

use journal_records::{MAX_FILE, MAX_RECORD};
use site_traits::{DiskFailed, Site};

/// What stands at the place of a gate.
#[derive(Clone, Copy)]
pub enum Head {
    /// A closed gate.
    Closed,
    /// An open gate, and behind it a record of so many bytes.
    Open(u32),
    /// The end of the file, or an open gate with no record behind it.
    Broken,
}

/// What stands at place `end` of the site's file, which has `len` bytes.
pub fn head_at<S: Site>(site: &mut S, end: u64, len: u64) -> Result<Head, DiskFailed>
    requires small { end < 268435456 }
    requires long { S.tells → len ≡ length (S.state site.old).image }
    requires within { end ≤ len }

    ensures head { S.tells → IfOk result (HeadIs end (drop end (S.state site.old).image)) }
    ensures ends { IfOk result (HeadEnds end len) }
    ensures told { S.tells → Reads (S.state site.old) (S.state site.new) }
    ensures cause { DiskCause (S.counts site.old) (S.counts site.new) result }
{
    if end == len {
        return Ok(Head::Broken);
    }
    let mut bytes = [0u8; 5];
    let held = if len - end < 5 {
        (len - end) as usize
    } else {
        5
    };
    site.read_at(end, &mut bytes[..held])?;
    Ok(head_of(&bytes[..held], end, len))
}

// What these bytes, the first of those from place `end` on, say of a file of `len` bytes.
fn head_of(bytes: &[u8], end: u64, len: u64) -> Head
    requires some { 1 ≤ length bytes.now }
    requires few { length bytes.now ≤ 5 }
    requires small { end < 268435456 }

    ensures head { (rest : List ℕ) → bytes.now ≡ take 5 rest → end + length rest ≡ len → HeadIs end rest result }
    ensures ends { HeadEnds end len result }
{
    if bytes[0] != 1 {
        return Head::Closed;
    }
    if bytes.len() < 5 {
        return Head::Broken;
    }
    let size = u32::from_be_bytes([bytes[1], bytes[2], bytes[3], bytes[4]]);
    if ends_within(end, len, size) {
        Head::Open(size)
    } else {
        Head::Broken
    }
}

// Whether a record of this size at this place is one.
fn ends_within(end: u64, len: u64, size: u32) -> bool
    requires { end < 268435456 }
    ensures { IsTrue result ↔ EndsWithin end len size }
{
    let behind = end + 5 + size as u64;
    1 <= size && size as usize <= MAX_RECORD && behind <= len && behind < MAX_FILE
}
