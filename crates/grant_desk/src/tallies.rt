//! How often rows name each change of a part of a plan, counted without memory: so many changes at a time in one walk
//! over the rows.
ghost use Rattle.std.specs.Prelude.{◌≡◌, ◌<◌, ◌≤◌, ◌+◌, ◌^◌, ℕ, length, slice_index, count_by, EachIndex};
ghost use Rattle.grant_desk.specs.Parts.{asks};
ghost use Rattle.grant_desk.specs.Tallies.{AreTallied, are_counted_once, are_named_once, counted};

use crate::identifiers::change_number;
use crate::parts::{Part, asks};
use crate::rows::GrantRow;
use lcm_events::Change;
use vnfm_base::Name;

/// Counts of changes, that of change `first` in front, after a row with this identifier.
fn count_row(id: &Name, first: u64, counts: &mut [u8])
    ensures length { length counts.new ≡ length counts.old }
    ensures counted { (j : ℕ) → j < length counts.old → first + j < 2 ^ 64
        → slice_index counts.new j ≡ counted id.now (first + j) (slice_index counts.old j) }
{
    let Some(number) = change_number(id) else {
        return;
    };
    let Some(place) = number.checked_sub(first) else {
        return;
    };
    if place < counts.len() as u64 {
        let place = place as usize;
        counts[place] = counts[place].saturating_add(1);
    }
}

/// Every count is 0.
fn clear(counts: &mut [u8])
    ensures length { length counts.new ≡ length counts.old }
    ensures none { EachIndex counts.new (λ j. slice_index counts.new j ≡ 0) }
{
    for count in counts.iter_mut() {
        *count = 0;
    }
}

/// Counts the rows that name change `first` and those behind it, as many as there are counts.
fn count_rows(rows: &[GrantRow], first: u64, counts: &mut [u8])
    ensures length { length counts.new ≡ length counts.old }
    ensures tallied { AreTallied rows.now first counts.new }
{
    clear(counts);
    for row in rows {
        count_row(&row.0, first, counts);
    }
}

/// Whether each of these changes that is asked for in this part is named once, by their counts.
fn are_counted_once(changes: &[Change], part: Part, counts: &[u8]) -> bool
    ensures { result ≡ are_counted_once part changes.now counts.now }
{
    for (change, count) in changes.iter().zip(counts) {
        if asks(part, change.verb) && *count != 1 {
            return false;
        }
    }
    true
}

/// Whether the rows name each of these changes that is asked for in this part once. The counts are room for the work:
/// the time is linear in the changes, and in the rows for each walk over them, of which there is one for as many
/// changes as there are counts.
pub fn are_named_once(changes: &[Change], part: Part, rows: &[GrantRow], counts: &mut [u8]) -> bool
    requires { 0 < length counts.old }
    ensures length { length counts.new ≡ length counts.old }
    ensures named { result ≡ are_named_once part rows.now 0 changes.now }
{
    let mut first: usize = 0;
    let mut left = changes;
    while !left.is_empty() {
        let (now, later) = left.split_at(left.len().min(counts.len()));
        count_rows(rows, first as u64, counts);
        if !are_counted_once(now, part, counts) {
            return false;
        }
        first += now.len();
        left = later;
    }
    true
}

/// How many changes are asked for in this part.
pub fn asked_in(changes: &[Change], part: Part) -> usize
    ensures { result ≡ count_by (λ x. asks part x.verb) changes.now }
{
    changes
        .iter()
        .filter(|change| asks(part, change.verb))
        .count()
}
