//! Telling a reply: its head and the front of its body in one write, and the rest of a longer body behind it.
ghost use Rattle.std.specs.Prelude.{◌≡◌, ◌+◌, ◌++◌, length, true};
ghost use Rattle.std.specs.Result.{is_err};
ghost use Rattle.lcm_replies.specs.Failing.{FailsOnce};
ghost use Rattle.lcm_replies.specs.Response.{body_told, head_text, text};
ghost use Rattle.lcm_replies.specs.Telling.{AsksWrites, WorldTells, one_piece, pieces};

use crate::door::{DoorFailed, write_all};
use crate::outgoing::Outgoing;
use crate::reply::Reply;
use site_traits::Door;

/// Writes the bytes of a reply, which are put together in this room. No memory is taken.
///
/// State: needs a connection at the door.
/// Refusal: `DoorFailed`, exactly where a write failed, after which a front of the bytes was told.
/// Source: RFC 9112 4 (Status Line), 5 (Field Syntax).
pub fn tell_reply<D: Door>(
    door: &mut D,
    outgoing: &mut Outgoing,
    reply: &Reply,
) -> Result<(), DoorFailed>
    requires up { (D.counts door.old).up ≡ true }
    ensures told { D.tells → WorldTells (text reply.now) result (D.state door.old) (D.state door.new) }
    ensures cause { FailsOnce (is_err result) (D.counts door.old) (D.counts door.new) }
    ensures asks { AsksWrites (pieces (length (text reply.now))) result (D.writes door.old) (D.writes door.new) }
{
    let body = body_told(reply);
    outgoing.set_head(reply, body.len());
    let rest = outgoing.put_front(body);
    write_both(door, outgoing.as_slice(), rest)
}

/// Writes these bytes, and then those.
fn write_both<D: Door>(door: &mut D, first: &[u8], rest: &[u8]) -> Result<(), DoorFailed>
    requires up { (D.counts door.old).up ≡ true }
    ensures told { D.tells → WorldTells (first.now ++ rest.now) result (D.state door.old) (D.state door.new) }
    ensures cause { FailsOnce (is_err result) (D.counts door.old) (D.counts door.new) }
    ensures asks { AsksWrites (one_piece (length first.now) + one_piece (length rest.now)) result (D.writes door.old)
        (D.writes door.new) }
{
    write_all(door, first)?;
    write_all(door, rest)
}

/// The body that is told.
#[tactic(auto, unfolding(crate::specs::Response::body_told))]
fn body_told(reply: &Reply) -> &[u8]
    ensures { result.now ≡ body_told reply.now }
{
    match reply.status {
        500 => b"{\"detail\":\"journal fault\",\"status\":500}",
        503 => b"{\"detail\":\"no memory\",\"status\":503}",
        _ => reply.body.as_slice(),
    }
}
