//! One exchange on a connection.
ghost use Rattle.std.specs.Prelude.{◌≡◌, ◌⊎◌, ◌≤◌, ◌<◌, ◌^◌, ◌≢◌, [], IfOk, IfErr, Some, length, vec_len};
ghost use Rattle.std.specs.Result.{result_err};
ghost use Rattle.host_calls.specs.Streams.{Takes};
ghost use Rattle.peer_exchange.specs.Exchanges.{Counts, EndsInTime, GivesAt, HasRead, IsLost, IsReplied, IsSent, IsTimed};
ghost use Rattle.peer_exchange.specs.Exchanges.{Receives, last_look, look_at};

use crate::looking::look_now;
use crate::replies::{Judged, Reply};
use edge_limits::Exchange;
use http_frames::chunks::rest;
use net_calls::{Connection, Stopwatch};
use std::alloc::{AllocError, Global};
use std::io::ErrorKind;

/// Bytes of the largest read: that of a socket's buffer.
const PIECE_BYTES: usize = 65_536;

/// Times that a call is made that signals interrupt.
const TRIES: u32 = 16;

/// Why there was no reply.
#[derive(Clone, Copy, PartialEq, Eq, Debug)]
pub enum Lost {
    /// A write failed, took nothing, or found no room in its time, so that the request wasn't sent whole.
    Unsent,
    /// The time was over, or the stopwatch showed nothing.
    Late,
    /// A read failed, or no byte came in its time.
    Unread,
    /// The peer ended the connection before the reply was whole.
    Ended,
    /// What came is no reply, or goes on behind it.
    NoReply,
    /// It has more bytes than there is room for.
    TooLong,
    /// There was no memory.
    Memory,
}

/// When an exchange began, and when its last call was made, in milliseconds of its stopwatch.
#[derive(Clone, Copy, PartialEq, Eq, Debug)]
pub struct Spent {
    pub began: u64,
    pub last: u64,
}

/// What came of the last reply, and room for what comes.
#[derive(Drop)]
pub struct Room {
    pub bytes: Vec<u8>,
    pub(crate) piece: Vec<u8>,
    /// Bytes of the longest reply.
    pub most: usize,
    ghost some: { 1 ≤ vec_len piece },
}

impl Room {
    /// Room for replies of so many bytes. What doesn't fit into a piece is taken as it comes.
    pub fn new(alloc: Global, most: usize) -> Result<Room, AllocError>
        ensures { IfOk result (λ room. room.most ≡ most) }
    {
        let mut piece = Vec::with_capacity(alloc, PIECE_BYTES)?;
        piece.resize(PIECE_BYTES, 0)?;
        Ok(Room {
            bytes: Vec::new(alloc),
            piece,
            most,
        })
    }
}

/// Sends this request once, and reads its reply until that is whole. Each byte that comes belongs to the reply: what
/// goes on behind it is refused. What came stands in the room.
///
/// Each call waits as long as the look at the stopwatch before it says, and isn't made where nothing of its time is
/// left. One that a signal interrupts is made again.
///
/// Condition: nothing was judged of a reply before.
/// Where it failed, a reply may still come on the connection: no other request may be sent on it.
pub fn exchange<R: Reply, C: Connection, T: Stopwatch>(
    connection: &mut C,
    watch: &mut T,
    reply: &mut R,
    request: &[u8],
    room: &mut Room,
    limits: Exchange,
) -> Result<Spent, Lost>
    requires limits { limits.silence < 2 ^ 32 }
    requires fresh { R.judged reply.old [] }
    ensures sends { C.tells → IsSent (result_err result) request.now (C.outgoing connection.old)
        (C.outgoing connection.new) }
    ensures replied { IfOk result (λ spent. IsReplied (R.is reply.new) C.tells room.new.bytes.items
        (C.incoming connection.old) (C.incoming connection.new)) }
    ensures in_time { IfOk result (λ spent. EndsInTime limits spent.began spent.last) }
    ensures timed { C.tells → T.tells → IsTimed room.new.most (last_look limits (T.shows watch.old) (T.shown watch.new))
        (C.allowed connection.new) (result_err result) }
    ensures counts { C.tells → Counts (result_err result) (C.vain connection.old) (C.vain connection.new) }
    ensures began { T.tells → IfOk result (λ spent. T.shows watch.old ≡ Some spent.began) }
    ensures lost { IfErr result (IsLost (R.is reply.new) room.new.most room.new.bytes.items) }
    ensures unread { C.tells → result_err result ≡ Some Lost.Unread → HasRead room.new.bytes.items
        (C.incoming connection.old) (C.incoming connection.new) }
    ensures room { room.new.most ≡ room.old.most }
{
    room.bytes.clear();
    let Some(began) = watch.millis() else {
        return Err(Lost::Late);
    };
    match send(connection, watch, request, limits, began) {
        Ok(()) => {}
        Err(lost) => return Err(lost),
    }
    match receive(connection, watch, reply, room, limits, began) {
        Ok(last) => Ok(Spent { began, last }),
        Err(lost) => Err(lost),
    }
}

/// Sends all of these bytes.
fn send<C: Connection, T: Stopwatch>(
    connection: &mut C,
    watch: &mut T,
    bytes: &[u8],
    limits: Exchange,
    began: u64,
) -> Result<(), Lost>
    requires { limits.silence < 2 ^ 32 }
    ensures sent { C.tells → IsSent (result_err result) bytes.now (C.outgoing connection.old)
        (C.outgoing connection.new) }
    ensures kept { C.tells → C.incoming connection.new ≡ C.incoming connection.old }
    ensures why { IfErr result (λ lost. (lost ≡ Lost.Unsent) ⊎ (lost ≡ Lost.Late)) }
    ensures timed { C.tells → T.tells → IfErr result (λ lost.
        IsTimed 1 (look_at limits began (T.shown watch.new)) (C.allowed connection.new) (Some lost)) }
    ensures counts { C.tells → Counts (result_err result) (C.vain connection.old) (C.vain connection.new) }
{
    let mut sent = 0;
    'writes: while sent < bytes.len() {
        match write_some(connection, watch, rest(bytes, sent), limits, began) {
            Ok(0) => return Err(Lost::Unsent),
            Ok(count) => sent += count,
            Err(lost) => return Err(lost),
        }
    }
    Ok(())
}

/// Sends the first of these bytes, and gives how many.
fn write_some<C: Connection, T: Stopwatch>(
    connection: &mut C,
    watch: &mut T,
    bytes: &[u8],
    limits: Exchange,
    began: u64,
) -> Result<usize, Lost>
    requires { limits.silence < 2 ^ 32 }
    ensures most { IfOk result (λ n. n ≤ length bytes.now) }
    ensures some { C.tells → 1 ≤ length bytes.now → IfOk result (λ n. 1 ≤ n) }
    ensures told { C.tells → Takes bytes.now result (C.outgoing connection.old) (C.outgoing connection.new) }
    ensures kept { C.tells → C.incoming connection.new ≡ C.incoming connection.old }
    ensures why { IfErr result (λ lost. (lost ≡ Lost.Unsent) ⊎ (lost ≡ Lost.Late)) }
    ensures timed { C.tells → T.tells → IsTimed 1 (look_at limits began (T.shown watch.new))
        (C.allowed connection.new) (result_err result) }
    ensures counts { C.tells → Counts (result_err result) (C.vain connection.old) (C.vain connection.new) }
{
    'tries: for _ in 0..TRIES {
        let Some(look) = look_now(watch, limits, began) else {
            return Err(Lost::Late);
        };
        match connection.write(bytes, look.wait) {
            Ok(count) => return Ok(count),
            Err(fault) if fault.kind() == ErrorKind::Interrupted => {}
            Err(_) => return Err(Lost::Unsent),
        }
    }
    Err(Lost::Unsent)
}

/// Reads until the reply is whole, behind what was read already. Gives when the last read was made.
fn receive<R: Reply, C: Connection, T: Stopwatch>(
    connection: &mut C,
    watch: &mut T,
    reply: &mut R,
    room: &mut Room,
    limits: Exchange,
    began: u64,
) -> Result<u64, Lost>
    requires limits { limits.silence < 2 ^ 32 }
    requires fresh { R.judged reply.old [] }
    requires nothing { room.old.bytes.items ≡ [] }
    ensures kept { C.tells → C.outgoing connection.new ≡ C.outgoing connection.old }
    ensures timed { C.tells → T.tells → IsTimed room.new.most (look_at limits began (T.shown watch.new))
        (C.allowed connection.new) (result_err result) }
    ensures counts { C.tells → Counts (result_err result) (C.vain connection.old) (C.vain connection.new) }
    ensures receives { Receives (R.is reply.new) C.tells room.new.most limits began room.new.bytes.items
        (C.incoming connection.old) (C.incoming connection.new) result }
    ensures unread { C.tells → result_err result ≡ Some Lost.Unread → HasRead room.new.bytes.items
        (C.incoming connection.old) (C.incoming connection.new) }
    ensures room { room.new.most ≡ room.old.most }
    ensures why { IfErr result (λ lost. lost ≢ Lost.Unsent) }
{
    'reads: while room.bytes.len() < room.most {
        let (count, now) = match read_some(connection, watch, &mut room.piece, limits, began) {
            Ok(some) => some,
            Err(lost) => return Err(lost),
        };
        let ended = count == 0;
        if room.bytes.extend_from_slice(&room.piece[..count]).is_err() {
            return Err(Lost::Memory);
        }
        match reply.judge(&room.bytes, ended) {
            Judged::Whole => return Ok(now),
            Judged::Unknown => return Err(Lost::Memory),
            _ if ended => return Err(Lost::Ended),
            Judged::Never => return Err(Lost::NoReply),
            Judged::Part => {}
        }
    }
    Err(Lost::TooLong)
}

/// Reads the next bytes to the front of `into`, none at the end alone. Gives how many, and when the read was made.
fn read_some<C: Connection, T: Stopwatch>(
    connection: &mut C,
    watch: &mut T,
    into: &mut [u8],
    limits: Exchange,
    began: u64,
) -> Result<(usize, u64), Lost>
    requires { limits.silence < 2 ^ 32 }
    ensures most { IfOk result (λ x. x.0 ≤ length into.old) }
    ensures told { C.tells → GivesAt into.old into.new result (C.incoming connection.old) (C.incoming connection.new) }
    ensures kept { C.tells → C.outgoing connection.new ≡ C.outgoing connection.old }
    ensures in_time { IfOk result (λ x. EndsInTime limits began x.1) }
    ensures why { IfErr result (λ lost. (lost ≡ Lost.Unread) ⊎ (lost ≡ Lost.Late)) }
    ensures timed { C.tells → T.tells → IsTimed 1 (look_at limits began (T.shown watch.new))
        (C.allowed connection.new) (result_err result) }
    ensures counts { C.tells → Counts (result_err result) (C.vain connection.old) (C.vain connection.new) }
{
    'tries: for _ in 0..TRIES {
        let Some(look) = look_now(watch, limits, began) else {
            return Err(Lost::Late);
        };
        match connection.read(into, look.wait) {
            Ok(count) => return Ok((count, look.now)),
            Err(fault) if fault.kind() == ErrorKind::Interrupted => {}
            Err(_) => return Err(Lost::Unread),
        }
    }
    Err(Lost::Unread)
}
