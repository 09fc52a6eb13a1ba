//! Takes the head and the body of a request out of an intake, reading no more than they need.
ghost use Rattle.std.specs.Prelude.{◌≡◌, ◌≤◌, ◌+◌, length, take, true, IfOk, OnErr, IsOk, option_map};
ghost use Rattle.httparse.specs.Spans.{span_bytes};
ghost use Rattle.http_frames.specs.declared.head.Body.TheVariants as bodies;
ghost use Rattle.http_frames.specs.Heads.{HasHead};
ghost use Rattle.http_frames.specs.Steps.{HasDecoded, HasMoreChunks, DecodedIs};
ghost use Rattle.http_wire.specs.Intake.{TakesIn};
ghost use Rattle.http_wire.specs.Wire.{OnlyTakesIn, RequestCame, HeadCame, SizedCame, BodyCame, HasParts, ReadCounts};
ghost use Rattle.http_wire.specs.Wire.{window};

use crate::intake::{Came, Intake};
use crate::request::{Request, WireFault};
use http::Method;
use http::method::MethodError;
use http_frames::chunks::{Decoded, Decoder, rest};
use http_frames::head::{Body, Head, HeadParts, HeadReader};
use http_frames::{CHUNKED_BYTES, FIELD_ROOM};
use httparse::spans::HeaderSpan;
use site_traits::Door;
use std::alloc::{AllocError, Global};
use vnfm_base::{Bytes, Text, TextFault};

/// A body, and where its framing ends in the bytes that are held.
#[derive(Drop)]
pub struct Whole {
    pub body: Vec<u8>,
    pub end: usize,
}

/// Takes the first request out of the bytes of the connection, reading on as far as it needs. `at_last` is whether it
/// is the connection's last one whatever it says.
pub fn take<D: Door>(
    alloc: Global,
    intake: &mut Intake<D>,
    room: &mut [HeaderSpan],
    at_last: bool,
) -> Result<Option<Request>, WireFault>
    requires room { FIELD_ROOM ≤ length room.old }
    requires up { intake.old.counts.up ≡ true }
    ensures reads { OnlyTakesIn D.tells intake.old intake.new }
    ensures came { RequestCame D.tells at_last intake.old intake.new result }
    ensures counts { ReadCounts result intake.old.counts intake.new.counts }
{
    let head = match take_head(alloc, intake, room) {
        Ok(Some(head)) => head,
        Ok(None) => return Ok(None),
        Err(fault) => return Err(fault),
    };
    let whole = match take_body(alloc, intake, head) {
        Ok(whole) => whole,
        Err(fault) => return Err(fault),
    };
    let request = match request_of(alloc, intake.held(), head, whole.body, at_last) {
        Ok(request) => request,
        Err(_) => return Err(WireFault::Memory),
    };
    intake.pass(whole.end);
    Ok(Some(request))
}

/// The head at the front of the bytes, or `None` where there is no byte. It is looked for behind each read.
fn take_head<D: Door>(
    alloc: Global,
    intake: &mut Intake<D>,
    room: &mut [HeaderSpan],
) -> Result<Option<HeadParts>, WireFault>
    requires room { FIELD_ROOM ≤ length room.old }
    requires up { intake.old.counts.up ≡ true }
    ensures takes { TakesIn D.tells intake.old intake.new }
    ensures came { HeadCame D.tells intake.old intake.new result }
    ensures counts { ReadCounts result intake.old.counts intake.new.counts }
{
    let mut reader = HeadReader::new(alloc);
    'looks: loop {
        let held = intake.held();
        let count = held.len();
        match reader.read(held, room) {
            Head::Whole(head) => return Ok(Some(head)),
            Head::Malformed => return Err(WireFault::Malformed),
            Head::TooLarge => return Err(WireFault::TooLarge),
            Head::More => {}
        }
        match intake.read_on() {
            Ok(Came::Bytes) => {}
            Ok(Came::End) if count == 0 => return Ok(None),
            Ok(Came::End) => return Err(WireFault::Unfinished),
            Ok(Came::Failed) => return Err(WireFault::Read),
            Err(_) => return Err(WireFault::Memory),
        }
    }
}

/// The body of the request whose head stands at the front of the bytes.
fn take_body<D: Door>(
    alloc: Global,
    intake: &mut Intake<D>,
    head: HeadParts,
) -> Result<Whole, WireFault>
    requires head { HasHead intake.old.held head }
    requires up { intake.old.counts.up ≡ true }
    ensures takes { TakesIn D.tells intake.old intake.new }
    ensures head { HasHead intake.new.held head }
    ensures came { BodyCame D.tells intake.old intake.new head result }
    ensures counts { ReadCounts result intake.old.counts intake.new.counts }
{
    match head.body {
        Body::Empty => Ok(Whole {
            body: Vec::new(alloc),
            end: head.len,
        }),
        Body::Sized(length) => {
            let end = match take_sized(intake, head, length) {
                Ok(end) => end,
                Err(fault) => return Err(fault),
            };
            match Vec::from_slice(alloc, &intake.held()[head.len..end]) {
                Ok(body) => Ok(Whole { body, end }),
                Err(_) => Err(WireFault::Memory),
            }
        }
        Body::Chunked => take_chunked(alloc, intake, head),
    }
}

/// Reads on until a body of this length is held. Answers where it ends.
fn take_sized<D: Door>(
    intake: &mut Intake<D>,
    head: HeadParts,
    length: usize,
) -> Result<usize, WireFault>
    requires head { HasHead intake.old.held head }
    requires sized { head.body ≡ bodies.Sized length }
    requires up { intake.old.counts.up ≡ true }
    ensures takes { TakesIn D.tells intake.old intake.new }
    ensures came { SizedCame D.tells intake.old intake.new (head.len + length) result }
    ensures counts { ReadCounts result intake.old.counts intake.new.counts }
{
    let end = head.len + length;
    'reads: while intake.held().len() < end {
        match intake.read_on() {
            Ok(Came::Bytes) => {}
            Ok(Came::End) => return Err(WireFault::Unfinished),
            Ok(Came::Failed) => return Err(WireFault::Read),
            Err(_) => return Err(WireFault::Memory),
        }
    }
    Ok(end)
}

/// Reads on until a chunked body is whole.
fn take_chunked<D: Door>(
    alloc: Global,
    intake: &mut Intake<D>,
    head: HeadParts,
) -> Result<Whole, WireFault>
    requires head { HasHead intake.old.held head }
    requires chunked { head.body ≡ bodies.Chunked }
    requires up { intake.old.counts.up ≡ true }
    ensures takes { TakesIn D.tells intake.old intake.new }
    ensures came { BodyCame D.tells intake.old intake.new head result }
    ensures counts { ReadCounts result intake.old.counts intake.new.counts }
{
    let mut decoder = Decoder::new(alloc);
    'looks: loop {
        let held = intake.held();
        let behind = held.len() - head.len;
        match decode_held(&mut decoder, held, head) {
            Ok(Decoded::Whole(n)) => return Ok(Whole {
                body: decoder.body,
                end: head.len + n,
            }),
            Ok(Decoded::More) => {}
            Ok(Decoded::Malformed) => return Err(WireFault::Malformed),
            Ok(Decoded::TooLarge) => return Err(WireFault::TooLarge),
            Err(_) => return Err(WireFault::Memory),
        }
        if behind > CHUNKED_BYTES {
            return Err(WireFault::TooLarge);
        }
        match intake.read_on() {
            Ok(Came::Bytes) => {}
            Ok(Came::End) => return Err(WireFault::Unfinished),
            Ok(Came::Failed) => return Err(WireFault::Read),
            Err(_) => return Err(WireFault::Memory),
        }
    }
}

/// Goes on with a chunked body in the bytes that are held.
fn decode_held(decoder: &mut Decoder, held: &[u8], head: HeadParts) -> Result<Decoded, AllocError>
    requires head { HasHead held.now head }
    requires decoded { HasDecoded (window held.now head) decoder.old }
    ensures kept { HasDecoded (window held.now head) decoder.new }
    ensures verdict { IfOk result (DecodedIs (window held.now head) decoder.new.body.items) }
    ensures memory { OnErr result (HasMoreChunks (window held.now head) (length decoder.new.body.items)) }
{
    let tail = rest(held, head.len);
    decoder.decode(front(tail))
}

/// The bytes as far as a chunked body may go.
fn front(tail: &[u8]) -> &[u8]
    ensures { result.now ≡ take CHUNKED_BYTES tail.now }
{
    &tail[..tail.len().min(CHUNKED_BYTES)]
}

/// The request of these parts of the bytes that are held. It fails where there is no memory for a part, and nowhere
/// else.
fn request_of(
    alloc: Global,
    held: &[u8],
    head: HeadParts,
    body: Vec<u8>,
    at_last: bool,
) -> Result<Request, AllocError>
    requires { HasHead held.now head }
    ensures { IfOk result (HasParts held.now head body.items at_last) }
{
    let method = method_of(alloc, held, head)?;
    let target = target_of(alloc, held, head)?;
    let media = media_of(alloc, held, head)?;
    Ok(Request {
        method,
        target,
        media,
        body: Bytes::of_vec(body),
        last: head.closes | at_last,
    })
}

/// The method. The grammar of heads makes it a token.
fn method_of(alloc: Global, held: &[u8], head: HeadParts) -> Result<Method, AllocError>
    requires { HasHead held.now head }
    ensures value { IfOk result (λ method. method ≡ span_bytes held.now head.method) }
    ensures no_memory_needed { length (span_bytes held.now head.method) ≤ 15 → IsOk result }
{
    match Method::from_bytes(alloc, head.method.of(held)) {
        Ok(method) => Ok(method),
        Err(MethodError::Invalid) => unreachable!(),
        Err(MethodError::OutOfMemory) => Err(AllocError),
    }
}

/// The target. The grammar of heads makes it a text.
fn target_of(alloc: Global, held: &[u8], head: HeadParts) -> Result<Text, AllocError>
    requires { HasHead held.now head }
    ensures { IfOk result (λ target. target ≡ span_bytes held.now head.target) }
{
    match Text::of(alloc, head.target.of(held)) {
        Ok(target) => Ok(target),
        Err(TextFault::NotText) => unreachable!(),
        Err(TextFault::Memory) => Err(AllocError),
    }
}

/// The value of the first Content-Type field, if there is one.
fn media_of(alloc: Global, held: &[u8], head: HeadParts) -> Result<Option<Bytes>, AllocError>
    requires { HasHead held.now head }
    ensures { IfOk result (λ media. media ≡ option_map (span_bytes held.now) head.media) }
{
    match head.media {
        None => Ok(None),
        Some(place) => {
            let media = Bytes::of(alloc, place.of(held))?;
            Ok(Some(media))
        }
    }
}
