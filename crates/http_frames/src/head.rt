//! Reads the head of a request from the front of the bytes that are held.
ghost use Rattle.std.specs.Prelude.{◌≡◌, ◌≤◌, ℕ, List, [], ◌∷◌, ◌++◌, length, IsTrue, OnOk};
ghost use Rattle.http_frames.specs.Heads.{HeadIs, HasSpans, HasReadLines, AreWholeLines};
ghost use Rattle.http_frames.specs.declared.head.Head.TheVariants as heads;

use crate::framing::{self, Frame};
use crate::{FIELD_ROOM, HEAD_BYTES, HEAD_FIELDS};
use httparse::Status;
use httparse::spans::{self, HeaderSpan, RequestSpans, Span};
use memchr::memrchr;
use std::alloc::{AllocError, Global};

/// Bytes that come before whole lines of a head are looked for again. A head of our routes has no more.
const LINES_BYTES: usize = 1_024;

/// What a request's head says of the body.
#[derive(Clone, Copy, PartialEq, Eq)]
pub enum Body {
    /// There is none.
    Empty,
    /// It has this many bytes, at most `BODY_BYTES`.
    Sized(usize),
    /// It comes in chunks.
    Chunked,
}

/// Where the parts of a request's head are.
#[derive(Clone, Copy, PartialEq, Eq)]
pub struct HeadParts {
    /// Bytes of the head, with the empty lines in front of it and the one at its end.
    pub len: usize,
    pub method: Span,
    pub target: Span,
    /// The value of the first Content-Type field.
    pub media: Option<Span>,
    pub body: Body,
    /// Whether the connection ends behind this request: HTTP/1.0, or `Connection: close`.
    pub closes: bool,
}

/// What the bytes begin with.
#[derive(Clone, Copy)]
pub enum Head {
    /// A head within the limits, of a sound framing.
    Whole(HeadParts),
    /// Less than a head.
    More,
    /// They break the grammar or the framing.
    Malformed,
    /// They pass a limit.
    TooLarge,
}

/// Reads a head that comes in pieces. What its first lines are is kept, so that of a long head only the lines behind
/// them are read again behind each piece.
#[derive(Drop)]
pub struct HeadReader {
    // A copy of the lines that are looked at, with an empty line behind them.
    lines: Vec<u8>,
    /// Bytes of the lines that are known to be a request line and fields; 0 where none are.
    pub passed: usize,
    /// Bytes with which whole lines are looked for again.
    due: usize,
}

impl HeadReader {
    /// A reader that has read nothing.
    pub fn new(alloc: Global) -> HeadReader
        ensures { (bytes : List ℕ) → HasReadLines bytes result }
    {
        HeadReader {
            lines: Vec::new(alloc),
            passed: 0,
            due: LINES_BYTES,
        }
    }

    /// What the bytes begin with, which are those of the last call and what came since: as `read_head` says.
    pub fn read(&mut self, bytes: &[u8], room: &mut [HeaderSpan]) -> Head
        requires room { FIELD_ROOM ≤ length room.old }
        requires lines { HasReadLines bytes.now self.old }
        ensures head { HeadIs bytes.now result }
        ensures kept { HasReadLines bytes.now self.new }
    {
        if self.goes_on(bytes, room) {
            self.pass_lines(bytes, room);
            return Head::More;
        }
        match read_head(bytes, room) {
            Head::More => {
                self.pass_lines(bytes, room);
                Head::More
            }
            head => head,
        }
    }

    /// Whether the bytes are less than a head, by the lines behind those that are known.
    fn goes_on(&self, bytes: &[u8], room: &mut [HeaderSpan]) -> bool
        requires { HasReadLines bytes.now self.now }
        ensures { IsTrue result → HeadIs bytes.now heads.More }
    {
        if self.passed == 0 || bytes.len() > HEAD_BYTES {
            return false;
        }
        matches!(
            spans::parse_headers_from(bytes, self.passed, room),
            Ok(Status::Partial)
        )
    }

    /// Looks for more lines that are whole, where many bytes came since that was done. Without memory none are found.
    fn pass_lines(&mut self, bytes: &[u8], room: &mut [HeaderSpan])
        requires { HasReadLines bytes.now self.old }
        ensures { HasReadLines bytes.now self.new }
    {
        if bytes.len() < self.due {
            return;
        }
        self.due = bytes.len().saturating_add(LINES_BYTES);
        let Some(n) = memrchr(b'\n', bytes) else {
            return;
        };
        if are_whole_lines(&mut self.lines, &bytes[..n + 1], room) {
            self.passed = n + 1;
        }
    }
}

/// Whether the bytes, whose last one is a line feed, are a request line and whole fields. `lines` is for a copy of
/// them.
fn are_whole_lines(lines: &mut Vec<u8>, bytes: &[u8], room: &mut [HeaderSpan]) -> bool
    requires { (front : List ℕ) × (bytes.now ≡ front ++ 10 ∷ []) }
    ensures { IsTrue result → AreWholeLines bytes.now }
{
    let Ok(()) = copy_lines(lines, bytes) else {
        return false;
    };
    match spans::parse_request(lines, room) {
        Ok(Status::Complete(head)) => head.len == lines.len(),
        _ => false,
    }
}

/// Copies the bytes, and an empty line behind them.
fn copy_lines(lines: &mut Vec<u8>, bytes: &[u8]) -> Result<(), AllocError>
    ensures { OnOk result (lines.new.items ≡ bytes.now ++ 10 ∷ []) }
{
    lines.clear();
    lines.extend_from_slice(bytes)?;
    lines.extend_from_slice(b"\n")
}

/// What the bytes begin with. `room` is for the places of the fields, and what it held is lost.
///
/// Where the first `HEAD_BYTES` bytes end inside a request target, the answer may be `TooLarge` although the bytes are
/// malformed.
///
/// Source: RFC 9112 2 to 6; the limits are our own.
pub fn read_head(bytes: &[u8], room: &mut [HeaderSpan]) -> Head
    requires { FIELD_ROOM ≤ length room.old }
    ensures { HeadIs bytes.now result }
{
    if bytes.len() <= HEAD_BYTES {
        return read_short_head(bytes, room);
    }
    match read_short_head(&bytes[..HEAD_BYTES], room) {
        Head::More => Head::TooLarge,
        head => head,
    }
}

/// What the bytes begin with, where they are no more than a head may have.
fn read_short_head(bytes: &[u8], room: &mut [HeaderSpan]) -> Head
    requires room { FIELD_ROOM ≤ length room.old }
    requires short { length bytes.now ≤ HEAD_BYTES }
    ensures { HeadIs bytes.now result }
{
    match spans::parse_request(bytes, room) {
        Ok(Status::Complete(head)) => {
            if head.headers > HEAD_FIELDS {
                return Head::TooLarge;
            }
            judge(bytes, &room[..head.headers], head)
        }
        Ok(Status::Partial) => Head::More,
        Err(_) => Head::Malformed,
    }
}

/// What the bytes begin with, by the fields of the head that they begin with.
fn judge(bytes: &[u8], fields: &[HeaderSpan], head: RequestSpans) -> Head
    requires { HasSpans bytes.now fields.now head }
    ensures { HeadIs bytes.now result }
{
    let body = match framing::frame_of(bytes, fields) {
        Frame::NoBody => Body::Empty,
        Frame::Sized(length) => Body::Sized(length),
        Frame::Chunked => Body::Chunked,
        Frame::TooLong => return Head::TooLarge,
        Frame::Broken => return Head::Malformed,
    };
    Head::Whole(HeadParts {
        len: head.len,
        method: head.method,
        target: head.path,
        media: framing::media_of(bytes, fields),
        body,
        closes: head.version == 0 || framing::closes(bytes, fields),
    })
}
