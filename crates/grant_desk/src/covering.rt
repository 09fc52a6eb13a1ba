//! Whether a grant covers what was asked.
ghost use Rattle.std.specs.Prelude.{◌≡◌, ◌<◌, length};
ghost use Rattle.lcm_model.specs.Grants.{covers, ids_of, names_each_once};
ghost use Rattle.grant_desk.specs.Parts.{asks};

use crate::parts::Part;
use crate::places::has_few_places;
use crate::rows::{GrantRow, GrantRows};
use crate::tallies::{are_named_once, asked_in};
use lcm_events::Change;

/// For how many changes one walk over the rows counts how often they are named. The largest plan needs one walk.
const COUNTED_AT_ONCE: usize = 8_192;

/// Whether the rows name each change that is asked for in this part once, in any order, and nothing else.
fn names_each_once(changes: &[Change], part: Part, rows: &[GrantRow], counts: &mut [u8]) -> bool
    requires { 0 < length counts.old }
    ensures length { length counts.new ≡ length counts.old }
    ensures named { result ≡ names_each_once (ids_of (asks part) changes.now) rows.now }
{
    rows.len() == asked_in(changes, part) && are_named_once(changes, part, rows, counts)
}

/// Whether a grant covers the changes of a plan: each of its three lists names exactly the identifiers that were asked
/// in that list, each once, in any order, and all rows together have at most 32 distinct places. It takes no memory.
/// The time is linear in the changes and the rows, up to 8,192 changes; beyond them the rows are walked over once for
/// each 8,192.
///
/// Source: SOL 003 9.5.2.3 (Grant); own rule.
pub fn covers(changes: &[Change], rows: &GrantRows) -> bool
    ensures { result ≡ covers changes.now rows.now.add rows.now.remove rows.now.update }
{
    let mut counts = [0; COUNTED_AT_ONCE];
    names_each_once(changes, Part::Add, rows.add.as_slice(), &mut counts)
        && names_each_once(changes, Part::Remove, rows.remove.as_slice(), &mut counts)
        && names_each_once(changes, Part::Update, rows.update.as_slice(), &mut counts)
        && has_few_places(rows)
}
