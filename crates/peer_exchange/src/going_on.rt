//! What has come of a reply that was waited for before.
ghost use Rattle.std.specs.Prelude.{◌≡◌, ◌≢◌, []};
ghost use Rattle.peer_exchange.specs.GoingOn.{HasCome, ReadsOn};

use crate::exchanging::Room;
use crate::replies::{Judged, Reply};
use net_calls::Connection;
use std::io::ErrorKind;

/// Milliseconds that a read waits for what is there already.
const AT_ONCE: u32 = 1;

/// How far a reply is.
#[derive(Clone, Copy, PartialEq, Eq, Debug)]
pub enum Progress {
    /// It is whole.
    Whole,
    /// It may still come.
    Part,
    /// It doesn't come: a read failed, the connection ended before the reply was whole, what came is no reply or too
    /// long, or there was no memory.
    Lost,
}

/// Reads what has come of a reply, behind what stands in the room already, and doesn't wait for more. Nothing is sent.
///
/// Condition: nothing was judged of a reply before.
/// Where it is lost the connection is of no use.
pub fn go_on<R: Reply, C: Connection>(
    connection: &mut C,
    reply: &mut R,
    room: &mut Room,
) -> Progress
    requires fresh { R.judged reply.old [] }
    ensures sends_nothing { C.tells → C.outgoing connection.new ≡ C.outgoing connection.old }
    ensures reads { C.tells → result ≢ Progress.Lost → ReadsOn room.old.bytes.items room.new.bytes.items (C.incoming connection.old)
        (C.incoming connection.new) }
    ensures whole { result ≡ Progress.Whole → HasCome (R.is reply.new) C.tells room.new.bytes.items
        (C.incoming connection.new) }
    ensures room { room.new.most ≡ room.old.most }
{
    'reads: while room.bytes.len() < room.most {
        if connection.is_quiet() {
            return Progress::Part;
        }
        let count = match connection.read(&mut room.piece, AT_ONCE) {
            Ok(count) => count,
            Err(fault) if fault.kind() == ErrorKind::WouldBlock => return Progress::Part,
            Err(_) => return Progress::Lost,
        };
        let ended = count == 0;
        if room.bytes.extend_from_slice(&room.piece[..count]).is_err() {
            return Progress::Lost;
        }
        match reply.judge(&room.bytes, ended) {
            Judged::Whole => return Progress::Whole,
            Judged::Part if !ended => {}
            _ => return Progress::Lost,
        }
    }
    Progress::Lost
}
