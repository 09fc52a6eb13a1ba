//! What the bytes of a client begin with, as they come: each byte is judged once.
ghost use Rattle.std.specs.Prelude.{◌≡◌, ◌≤◌, ◌++◌, ℕ, List, length, take, IfOk};
ghost use Rattle.http_frames.specs.Heads.{HasHead};
ghost use Rattle.http_frames.specs.Steps.{HasDecoded, DecodedIs};
ghost use Rattle.http_frames.specs.declared.head.Body.TheVariants as bodies;
ghost use Rattle.http_wire.specs.Wire.{window};
ghost use Rattle.request_pool.specs.Fronts.{FrontIs, HasReadFront};

use http_frames::chunks::{Decoded, Decoder, rest};
use http_frames::head::{Body, Head, HeadParts, HeadReader};
use http_frames::{CHUNKED_BYTES, FIELD_ROOM};
use httparse::spans::HeaderSpan;
use std::alloc::{AllocError, Global};

/// Where a whole request ends, and the parts of its head.
#[derive(Clone, Copy, PartialEq, Eq)]
pub struct Place {
    /// Bytes of the request, with the empty lines in front of it.
    pub len: usize,
    /// The parts of its head.
    pub head: HeadParts,
}

/// What the bytes of a client begin with.
#[derive(Clone, Copy)]
pub enum Front {
    /// No whole request yet: more has to come.
    Part,
    /// A whole request.
    Whole(Place),
    /// Bytes that break the grammar or the framing.
    Malformed,
    /// Bytes that pass a limit.
    TooLarge,
}

/// Reads what bytes that come in pieces begin with. What was read of them is kept, so that a client that sends a byte
/// at a time costs no more than one that sends all at once.
#[derive(Drop)]
pub struct FrontReader {
    lines: HeadReader,
    head: Option<HeadParts>,
    decoder: Decoder,
}

impl FrontReader {
    /// A reader that has read nothing.
    pub fn new(alloc: Global) -> FrontReader
        ensures { (bytes : List ℕ) → HasReadFront bytes result }
    {
        FrontReader {
            lines: HeadReader::new(alloc),
            head: None,
            decoder: Decoder::new(alloc),
        }
    }

    /// What the bytes begin with, which are those of the last call and what came since. `room` is for the places of
    /// header fields, and what it held is lost.
    ///
    /// After `AllocError`, which comes only within a chunked body, nothing is lost: the same call goes on.
    ///
    /// Source: RFC 9112 2 to 7; the limits are our own.
    pub fn read(&mut self, bytes: &[u8], room: &mut [HeaderSpan]) -> Result<Front, AllocError>
        requires room { FIELD_ROOM ≤ length room.old }
        requires known { HasReadFront bytes.now self.old }
        ensures kept { (more : List ℕ) → HasReadFront (bytes.now ++ more) self.new }
        ensures front { IfOk result (FrontIs bytes.now) }
    {
        if let Some(head) = self.head {
            return read_body(&mut self.decoder, bytes, head);
        }
        match self.lines.read(bytes, room) {
            Head::Whole(head) => {
                self.head = Some(head);
                read_body(&mut self.decoder, bytes, head)
            }
            Head::More => Ok(Front::Part),
            Head::Malformed => Ok(Front::Malformed),
            Head::TooLarge => Ok(Front::TooLarge),
        }
    }
}

/// What the bytes begin with, whose head is this.
fn read_body(decoder: &mut Decoder, bytes: &[u8], head: HeadParts) -> Result<Front, AllocError>
    requires head { HasHead bytes.now head }
    requires decoded { HasDecoded (window bytes.now head) decoder.old }
    ensures kept { HasDecoded (window bytes.now head) decoder.new }
    ensures front { IfOk result (FrontIs bytes.now) }
{
    match head.body {
        Body::Empty => Ok(whole_at(bytes, head)),
        Body::Sized(length) => Ok(read_sized(bytes, head, length)),
        Body::Chunked => read_chunked(decoder, bytes, head),
    }
}

/// A request that ends with its head.
fn whole_at(bytes: &[u8], head: HeadParts) -> Front
    requires head { HasHead bytes.now head }
    requires empty { head.body ≡ bodies.Empty }
    ensures { FrontIs bytes.now result }
{
    let _ = bytes;
    Front::Whole(Place {
        len: head.len,
        head,
    })
}

/// What the bytes begin with, whose head announces a body of this length.
fn read_sized(bytes: &[u8], head: HeadParts, length: usize) -> Front
    requires head { HasHead bytes.now head }
    requires sized { head.body ≡ bodies.Sized length }
    ensures { FrontIs bytes.now result }
{
    let len = head.len + length;
    if bytes.len() < len {
        return Front::Part;
    }
    Front::Whole(Place { len, head })
}

/// What the bytes begin with, whose head announces a chunked body.
fn read_chunked(decoder: &mut Decoder, bytes: &[u8], head: HeadParts) -> Result<Front, AllocError>
    requires head { HasHead bytes.now head }
    requires chunked { head.body ≡ bodies.Chunked }
    requires decoded { HasDecoded (window bytes.now head) decoder.old }
    ensures kept { HasDecoded (window bytes.now head) decoder.new }
    ensures front { IfOk result (FrontIs bytes.now) }
{
    let behind = bytes.len() - head.len;
    match decode_held(decoder, bytes, head) {
        Ok(Decoded::Whole(count)) => Ok(Front::Whole(Place {
            len: head.len + count,
            head,
        })),
        Ok(Decoded::More) => Ok(if behind > CHUNKED_BYTES {
            Front::TooLarge
        } else {
            Front::Part
        }),
        Ok(Decoded::Malformed) => Ok(Front::Malformed),
        Ok(Decoded::TooLarge) => Ok(Front::TooLarge),
        Err(fault) => Err(fault),
    }
}

/// Goes on with a chunked body as far as the bytes allow.
fn decode_held(decoder: &mut Decoder, bytes: &[u8], head: HeadParts) -> Result<Decoded, AllocError>
    requires head { HasHead bytes.now head }
    requires decoded { HasDecoded (window bytes.now head) decoder.old }
    ensures kept { HasDecoded (window bytes.now head) decoder.new }
    ensures verdict { IfOk result (DecodedIs (window bytes.now head) decoder.new.body.items) }
{
    decoder.decode(front_of(rest(bytes, head.len)))
}

/// The bytes as far as a chunked body may go.
fn front_of(tail: &[u8]) -> &[u8]
    ensures { result.now ≡ take CHUNKED_BYTES tail.now }
{
    &tail[..tail.len().min(CHUNKED_BYTES)]
}
