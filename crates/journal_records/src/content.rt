// Which bytes are the content of a batch.
ghost use Rattle.std.specs.Prelude.{◌≡◌, ◌≤◌, ◌↔◌, ◌+◌, ◌++◌, ℕ, List, IsTrue, MatchOption, length, take, drop};
ghost use Rattle.journal_records.specs.File.{held, number, IsRecord};
ghost use Rattle.journal_records.specs.Reading.{AreRecords, BeginWithRecord, BeginWithNone};

use crate::limits::MAX_RECORD;

/// Whether these bytes are the content of a batch, or of the records at the end of one: records, each behind the number
/// of its bytes.
pub fn are_records(bytes: &[u8]) -> bool
    ensures { IsTrue result ↔ AreRecords bytes.now }
{
    let mut rest = bytes;
    while !rest.is_empty() {
        let Some(size) = first_size(rest) else {
            return false;
        };
        rest = &rest[4 + size..];
    }
    true
}

// The size of the record that these bytes begin with.
fn first_size(bytes: &[u8]) -> Option<usize>
    ensures { MatchOption result (BeginWithNone bytes.now) (BeginWithRecord bytes.now) }
{
    if bytes.len() < 4 {
        return None;
    }
    let size = number_of(bytes) as usize;
    if size == 0 || size > MAX_RECORD || size > bytes.len() - 4 {
        return None;
    }
    Some(size)
}

/// The number in front of these bytes.
pub fn number_of(bytes: &[u8]) -> u32
    requires { 4 ≤ length bytes.now }
    ensures { result ≡ number bytes.now }
{
    u32::from_be_bytes([bytes[0], bytes[1], bytes[2], bytes[3]])
}
