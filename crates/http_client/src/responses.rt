//! Reads the one answer of a connection, however its bytes are cut.
ghost use Rattle.std.specs.Prelude.{◌≡◌, ◌≤◌, ℕ, List, IfOk, IfSome, Some, length, take, option_map, true, false};
ghost use Rattle.httparse.specs.Spans.{span_bytes};
ghost use Rattle.http_frames.specs.declared.head.Body.TheVariants as bodies;
ghost use Rattle.http_client.specs.Responses.{AreAnswer, IsLocation};
ghost use Rattle.http_client.specs.Reading.{HasRead, HasReadFront, HasAnswerHead, SaysWhatIs, said_by, said_of};
ghost use Rattle.http_client.specs.Reading.{HeadCame, IsHeard};

use crate::heads::{AnswerHead, AnswerParts};
use crate::lines::LineReader;
use crate::room::FieldRoom;
use http_frames::chunks::{Decoded, Decoder, rest};
use http_frames::head::Body;
use http_frames::{BODY_BYTES, CHUNKED_BYTES};
use site_traits::Heard;
use std::alloc::{AllocError, Global};
use vnfm_base::{Line, LineFault};

/// Why bytes are no answer.
#[derive(Clone, Copy, PartialEq, Eq, Debug, Drop)]
pub enum ResponseFault {
    /// They break the grammar or the framing, or go on behind the answer.
    Malformed,
    /// They pass a limit.
    TooLarge,
    /// There was no memory.
    Memory,
}

/// Reads an answer that comes in pieces. Nothing that was passed is looked at again, and of a head no line that is
/// known.
#[derive(Drop)]
pub struct ResponseReader {
    /// Bytes of the interim answers.
    pub passed: usize,
    /// The head of the answer behind them, where it is whole.
    pub head: Option<AnswerParts>,
    /// Of a chunked body what was passed.
    pub decoder: Decoder,
    /// Of a head that isn't whole the lines that are known.
    pub lines: LineReader,
    room: FieldRoom,
}

impl ResponseReader {
    /// A reader that has read nothing. It takes the room for the fields of a head.
    pub fn new(alloc: Global) -> Result<ResponseReader, AllocError>
        ensures { IfOk result (λ r. (bytes : List ℕ) → HasRead bytes r) }
    {
        let room = FieldRoom::new(alloc)?;
        Ok(ResponseReader {
            passed: 0,
            head: None,
            decoder: Decoder::new(alloc),
            lines: LineReader::new(alloc),
            room,
        })
    }

    /// Forgets what was read. It takes no memory.
    pub fn renew(&mut self, alloc: Global)
        ensures { (bytes : List ℕ) → HasRead bytes self.new }
    {
        self.passed = 0;
        self.head = None;
        self.decoder = Decoder::new(alloc);
        self.lines.renew();
    }

    /// Whether the bytes are a whole answer, and no byte behind it; where they are, it is heard. They are all bytes of
    /// the connection so far: those of the call before, and what came since. `ended` says whether the connection has
    /// ended behind them, which makes an answer whole that tells neither its length nor that it comes in chunks.
    /// Interim answers (1xx) are passed over.
    ///
    /// Takes memory for the content of chunks and for the Location.
    /// Refusals: `Malformed` and `TooLarge` exactly where the bytes are that; `Memory`. After one, `heard` holds
    /// nothing of use.
    /// Source: RFC 9112 4 to 7, RFC 9110 15; the limits are those of requests (docs/FORMATS.md), our own.
    pub fn read(
        &mut self,
        alloc: Global,
        bytes: &[u8],
        ended: bool,
        heard: &mut Heard,
    ) -> Result<bool, ResponseFault>
        requires { HasReadFront bytes.now self.old }
        ensures kept { HasRead bytes.now self.new }
        ensures says { SaysWhatIs ended bytes.now (said_by heard.new result) }
    {
        match self.find_head(bytes) {
            Ok(Some(parts)) => self.read_body(alloc, bytes, parts, ended, heard),
            Ok(None) => Ok(false),
            Err(fault) => Err(fault),
        }
    }

    /// The head of the answer behind the interim ones, where it is whole.
    fn find_head(&mut self, bytes: &[u8]) -> Result<Option<AnswerParts>, ResponseFault>
        requires { HasReadFront bytes.now self.old }
        ensures kept { HasRead bytes.now self.new }
        ensures came { HeadCame bytes.now self.new result }
    {
        if let Some(parts) = self.head {
            return Ok(Some(parts));
        }
        'heads: loop {
            let left = rest(bytes, self.passed);
            match self.lines.read(left, &mut self.room.places) {
                AnswerHead::Whole(parts) => {
                    self.head = Some(parts);
                    return Ok(Some(parts));
                }
                AnswerHead::Interim(len) => {
                    self.passed += len;
                    self.lines.renew();
                }
                AnswerHead::More => return Ok(None),
                AnswerHead::Malformed => return Err(ResponseFault::Malformed),
                AnswerHead::TooLarge => return Err(ResponseFault::TooLarge),
            }
        }
    }

    /// What the bytes are, whose last head has these parts.
    fn read_body(
        &mut self,
        alloc: Global,
        bytes: &[u8],
        parts: AnswerParts,
        ended: bool,
        heard: &mut Heard,
    ) -> Result<bool, ResponseFault>
        requires read { HasRead bytes.now self.old }
        requires head { self.old.head ≡ Some parts }
        ensures kept { HasRead bytes.now self.new }
        ensures is { IfSome (said_by heard.new result) (AreAnswer ended bytes.now) }
    {
        let left = rest(bytes, self.passed);
        let tail = rest(left, parts.len);
        match parts.body {
            Body::Sized(length) if tail.len() < length => Ok(false),
            Body::Sized(length) if tail.len() > length => Err(ResponseFault::Malformed),
            Body::Sized(_) => hear(alloc, left, parts, tail, heard),
            Body::Empty if tail.len() > BODY_BYTES => Err(ResponseFault::TooLarge),
            Body::Empty if !ended => Ok(false),
            Body::Empty => hear(alloc, left, parts, tail, heard),
            Body::Chunked => self.read_chunks(alloc, bytes, parts, ended, heard),
        }
    }

    /// What the bytes are, whose last head says that the body comes in chunks.
    fn read_chunks(
        &mut self,
        alloc: Global,
        bytes: &[u8],
        parts: AnswerParts,
        ended: bool,
        heard: &mut Heard,
    ) -> Result<bool, ResponseFault>
        requires read { HasRead bytes.now self.old }
        requires head { self.old.head ≡ Some parts }
        requires chunked { parts.body ≡ bodies.Chunked }
        ensures kept { HasRead bytes.now self.new }
        ensures is { IfSome (said_by heard.new result) (AreAnswer ended bytes.now) }
    {
        let left = rest(bytes, self.passed);
        let tail = rest(left, parts.len);
        let window = front(tail);
        match self.decoder.decode(window) {
            Ok(Decoded::Whole(end)) if end == tail.len() => {
                hear(alloc, left, parts, &self.decoder.body, heard)
            }
            Ok(Decoded::Whole(_)) => Err(ResponseFault::Malformed),
            Ok(Decoded::More) if tail.len() > CHUNKED_BYTES => Err(ResponseFault::TooLarge),
            Ok(Decoded::More) => Ok(false),
            Ok(Decoded::Malformed) => Err(ResponseFault::Malformed),
            Ok(Decoded::TooLarge) => Err(ResponseFault::TooLarge),
            Err(_) => Err(ResponseFault::Memory),
        }
    }
}

/// The bytes as far as a chunked body may go.
fn front(tail: &[u8]) -> &[u8]
    ensures { result.now ≡ take CHUNKED_BYTES tail.now }
{
    &tail[..tail.len().min(CHUNKED_BYTES)]
}

/// Hears the status and the Location of the head that the bytes begin with, and this body.
fn hear(
    alloc: Global,
    bytes: &[u8],
    parts: AnswerParts,
    body: &[u8],
    heard: &mut Heard,
) -> Result<bool, ResponseFault>
    requires head { HasAnswerHead bytes.now parts }
    requires fits { length body.now ≤ 1048576 }
    ensures { IsHeard bytes.now parts body.now heard.new result }
{
    match location_of(alloc, bytes, parts) {
        Ok(location) => {
            heard.hear(parts.status, location.as_ref(), body);
            Ok(true)
        }
        Err(_) => Err(ResponseFault::Memory),
    }
}

/// The first Location, where there is one that is a line.
fn location_of(alloc: Global, bytes: &[u8], parts: AnswerParts) -> Result<Option<Line>, AllocError>
    requires { HasAnswerHead bytes.now parts }
    ensures { IfOk result (λ location. IsLocation (option_map (span_bytes bytes.now) parts.location) location) }
{
    let Some(place) = parts.location else {
        return Ok(None);
    };
    match Line::of(alloc, place.of(bytes)) {
        Ok(line) => Ok(Some(line)),
        Err(LineFault::NotLine) => Ok(None),
        Err(LineFault::Memory) => Err(AllocError),
    }
}

/// The answer that these are all bytes of, of a connection that goes on. `None` exactly where they begin one that isn't
/// whole: where it tells neither its length nor that it comes in chunks, it is whole at the connection's end, which
/// `read_ended_response` judges.
///
/// Takes the room for every answer. Refusals: `Malformed` and `TooLarge` exactly where the bytes are that; `Memory`.
/// Source: RFC 9112 4 to 7, RFC 9110 15; the limits are those of requests (docs/FORMATS.md), our own.
pub fn read_response(alloc: Global, bytes: &[u8]) -> Result<Option<Heard>, ResponseFault>
    ensures { SaysWhatIs false bytes.now (said_of result) }
{
    read_once(alloc, bytes, false)
}

/// The same of a connection that has ended behind these bytes. `None` exactly where they break off.
pub fn read_ended_response(alloc: Global, bytes: &[u8]) -> Result<Option<Heard>, ResponseFault>
    ensures { SaysWhatIs true bytes.now (said_of result) }
{
    read_once(alloc, bytes, true)
}

/// The answer that these are all bytes of.
fn read_once(alloc: Global, bytes: &[u8], ended: bool) -> Result<Option<Heard>, ResponseFault>
    ensures { SaysWhatIs ended bytes.now (said_of result) }
{
    let Ok(mut heard) = Heard::new(alloc) else {
        return Err(ResponseFault::Memory);
    };
    let Ok(mut reader) = ResponseReader::new(alloc) else {
        return Err(ResponseFault::Memory);
    };
    match reader.read(alloc, bytes, ended, &mut heard) {
        Ok(true) => Ok(Some(heard)),
        Ok(false) => Ok(None),
        Err(fault) => Err(fault),
    }
}
