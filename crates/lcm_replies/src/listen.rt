//! Reading the bytes of a connection into room that was taken beforehand.
ghost use Rattle.std.specs.Prelude.{◌≡◌, ◌≤◌, length, take, true};
ghost use Rattle.lcm_replies.specs.Failing.{FailsOnce};
ghost use Rattle.lcm_replies.specs.Hearing.{Hears};

use site_traits::{Door, ReadAnswer};

/// How far a reading came.
#[derive(Clone, Copy)]
pub struct Reading {
    /// The bytes that were read.
    pub count: usize,
    /// Whether it ended because a read failed.
    pub failed: bool,
}

/// Reads to the connection's end, or until the room is full. No memory is taken.
///
/// State: needs a connection at the door.
/// Where `failed` holds a read failed, once, and what was read before it stands in front.
/// Source: own rule.
pub fn read_to_end<D: Door>(door: &mut D, room: &mut [u8]) -> Reading
    requires up { (D.counts door.old).up ≡ true }
    ensures within { result.count ≤ length room.old }
    ensures room { length room.new ≡ length room.old }
    ensures told { D.tells → Hears (length room.old) (take result.count room.new) result.failed (D.state door.old)
        (D.state door.new) }
    ensures cause { FailsOnce result.failed (D.counts door.old) (D.counts door.new) }
    ensures no_write { D.writes door.new ≡ D.writes door.old }
{
    let mut at = 0;
    while at < room.len() {
        match door.read(&mut room[at..]) {
            ReadAnswer::Got(n) => at += n,
            ReadAnswer::End => {
                return Reading {
                    count: at,
                    failed: false,
                };
            }
            ReadAnswer::Failed => {
                return Reading {
                    count: at,
                    failed: true,
                };
            }
        }
    }
    Reading {
        count: at,
        failed: false,
    }
}
