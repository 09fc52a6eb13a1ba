//! Passes over a chunked body as far as it is held, each of its bytes once: below `at` nothing is looked at again.
ghost use Rattle.std.specs.Prelude.{◌≡◌, ℕ, ◌≤◌, List, length, drop, IsTrue, IfOk, OnErr, ◌↔◌};
ghost use Rattle.http_frames.specs.Chunks.{BeginsCrLf};
ghost use Rattle.http_frames.specs.Steps.{HasDecoded, HasMoreChunks, DecodedIs, GoesOn};

use crate::BODY_BYTES;
use crate::lines::{SizeLine, SizeRead, TrailerLine};
use memchr::memchr;
use std::alloc::{AllocError, Global};

/// How far a chunked body was passed, and its content so far.
#[derive(Drop)]
pub struct Decoder {
    /// Bytes of the framing that were passed. None of them is looked at again.
    pub at: usize,
    /// What stands there.
    pub place: Place,
    pub body: Vec<u8>,
}

/// What stands behind the bytes that were passed.
#[derive(Clone, Copy)]
pub enum Place {
    /// What is missing of a chunk's size line.
    SizeLine(SizeLine),
    /// The content of a chunk, of so many bytes, one at least.
    Content(usize),
    /// What is missing of a line of the trailer.
    Trailer(TrailerLine),
}

/// What the bytes behind a head are, as a chunked body.
#[derive(Clone, Copy)]
pub enum Decoded {
    /// The body is whole, and the framing has so many bytes.
    Whole(usize),
    /// It breaks off.
    More,
    /// A chunk breaks the framing.
    Malformed,
    /// The chunks hold more than `BODY_BYTES` bytes.
    TooLarge,
}

impl Decoder {
    /// A decoder that has passed nothing.
    pub fn new(alloc: Global) -> Decoder
        ensures { (bytes : List ℕ) → HasDecoded bytes result }
    {
        Decoder {
            at: 0,
            place: Place::SizeLine(SizeLine::new()),
            body: Vec::new(alloc),
        }
    }

    /// Goes on as far as these bytes allow, which are those behind the head, from the first one that wasn't passed.
    ///
    /// After `AllocError`, which comes only where a whole chunk is to be kept, nothing is lost: the same call goes on.
    ///
    /// Source: RFC 9112 7.1; the limit is our own.
    pub fn decode(&mut self, bytes: &[u8]) -> Result<Decoded, AllocError>
        requires { HasDecoded bytes.now self.old }
        ensures kept { HasDecoded bytes.now self.new }
        ensures verdict { IfOk result (DecodedIs bytes.now self.new.body.items) }
        ensures memory { OnErr result (HasMoreChunks bytes.now (length self.new.body.items)) }
    {
        loop {
            let stop = match self.place {
                Place::SizeLine(line) => self.pass_size_line(line, bytes),
                Place::Content(size) => self.pass_content(size, bytes)?,
                Place::Trailer(line) => self.pass_trailer_line(line, bytes),
            };
            if let Some(verdict) = stop {
                return Ok(verdict);
            }
        }
    }

    /// Passes the rest of a size line, or stops where the bytes break off or are refused.
    fn pass_size_line(&mut self, line: SizeLine, bytes: &[u8]) -> Option<Decoded>
        requires decoded { HasDecoded bytes.now self.old }
        requires there { self.old.place ≡ Place.SizeLine line }
        ensures kept { HasDecoded bytes.now self.new }
        ensures stop { GoesOn bytes.now self.old.at self.new result }
    {
        match line.read(rest(bytes, self.at)) {
            SizeRead::More(longer) => {
                self.at = bytes.len();
                self.place = Place::SizeLine(longer);
                Some(Decoded::More)
            }
            SizeRead::Malformed => Some(Decoded::Malformed),
            SizeRead::Whole { len, size } => {
                if size > (BODY_BYTES - self.body.len()) as u64 {
                    return Some(Decoded::TooLarge);
                }
                self.at += len;
                if size == 0 {
                    self.place = Place::Trailer(TrailerLine::Nothing);
                    return None;
                }
                self.place = Place::Content(size as usize);
                None
            }
        }
    }

    /// Passes the content of a chunk and the CR LF behind it, or stops where the bytes break off or are refused.
    fn pass_content(&mut self, size: usize, bytes: &[u8]) -> Result<Option<Decoded>, AllocError>
        requires decoded { HasDecoded bytes.now self.old }
        requires there { self.old.place ≡ Place.Content size }
        ensures kept { HasDecoded bytes.now self.new }
        ensures stop { IfOk result (GoesOn bytes.now self.old.at self.new) }
        ensures memory { OnErr result (HasMoreChunks bytes.now (length self.new.body.items)) }
    {
        let left = rest(bytes, self.at);
        if !ends_in_crlf(left, size) {
            return Ok(Some(Decoded::Malformed));
        }
        if left.len() < size + 2 {
            return Ok(Some(Decoded::More));
        }
        self.body.extend_from_slice(&left[..size])?;
        self.at += size + 2;
        self.place = Place::SizeLine(SizeLine::new());
        Ok(None)
    }

    /// Passes the rest of a line of the trailer, or stops where the bytes break off or the trailer ends.
    fn pass_trailer_line(&mut self, line: TrailerLine, bytes: &[u8]) -> Option<Decoded>
        requires decoded { HasDecoded bytes.now self.old }
        requires there { self.old.place ≡ Place.Trailer line }
        ensures kept { HasDecoded bytes.now self.new }
        ensures stop { GoesOn bytes.now self.old.at self.new result }
    {
        let left = rest(bytes, self.at);
        match memchr(b'\n', left) {
            None => {
                self.at = bytes.len();
                self.place = Place::Trailer(line.with(left));
                Some(Decoded::More)
            }
            Some(n) => {
                if line.with(&left[..n]).is_empty() {
                    return Some(Decoded::Whole(self.at + n + 1));
                }
                self.at += n + 1;
                self.place = Place::Trailer(TrailerLine::Nothing);
                None
            }
        }
    }
}

/// Whether CR LF follows so many bytes of content, as far as the bytes go.
#[tactic(auto, using(crate::proofs::ListLaws::drop_within))]
fn ends_in_crlf(bytes: &[u8], size: usize) -> bool
    ensures { IsTrue result ↔ BeginsCrLf (drop size bytes.now) }
{
    begins_crlf(rest(bytes, size.min(bytes.len())))
}

/// Whether the bytes begin CR LF, as far as they go.
fn begins_crlf(bytes: &[u8]) -> bool
    ensures { IsTrue result ↔ BeginsCrLf bytes.now }
{
    match bytes {
        [] => true,
        [first] => *first == b'\r',
        [first, second, ..] => *first == b'\r' && *second == b'\n',
    }
}

/// The bytes from there on.
pub fn rest(bytes: &[u8], at: usize) -> &[u8]
    requires { at ≤ length bytes.now }
    ensures { result.now ≡ drop at bytes.now }
{
    &bytes[at..]
}
