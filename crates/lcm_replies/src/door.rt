//! Writing bytes to a connection until the door has taken them.
ghost use Rattle.std.specs.Prelude.{◌≡◌, ◌≤◌, length, true};
ghost use Rattle.std.specs.Result.{is_err};
ghost use Rattle.lcm_replies.specs.Failing.{FailsOnce};
ghost use Rattle.lcm_replies.specs.Telling.{AsksWrites, WorldTells, one_piece};

use site_traits::{Door, WriteAnswer};

/// A write failed: the door's count of faults rose by one, and a front of the bytes went out.
#[derive(Clone, Copy)]
pub struct DoorFailed;

/// Writes the bytes, with as few writes as the door takes. After one that failed there is no other.
pub fn write_all<D: Door>(door: &mut D, bytes: &[u8]) -> Result<(), DoorFailed>
    requires up { (D.counts door.old).up ≡ true }
    ensures told { D.tells → WorldTells bytes.now result (D.state door.old) (D.state door.new) }
    ensures cause { FailsOnce (is_err result) (D.counts door.old) (D.counts door.new) }
    ensures asks { AsksWrites (one_piece (length bytes.now)) result (D.writes door.old) (D.writes door.new) }
{
    let mut at = 0;
    while at < bytes.len() {
        match door.write(&bytes[at..]) {
            WriteAnswer::Took(n) => at += n,
            WriteAnswer::Failed => return Err(DoorFailed),
        }
    }
    Ok(())
}
