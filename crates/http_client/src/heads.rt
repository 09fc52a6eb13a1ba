//! Reads the head of an answer from the front of the bytes that are held.
ghost use Rattle.std.specs.Prelude.{◌≡◌, ◌≤◌, ℕ, List, length, take, All, map};
ghost use Rattle.httparse.specs.Spans.{IsHeaderWithin, header_bytes};
ghost use Rattle.http_client.specs.Responses.{frame_behind, is_bodiless, is_interim};
ghost use Rattle.http_client.specs.Reading.{AnswerHeadIs, HasResponseSpans};

use http_frames::framing::{self, Frame};
use http_frames::head::Body;
use http_frames::{FIELD_ROOM, HEAD_BYTES, HEAD_FIELDS};
use httparse::Status;
use httparse::spans::{self, HeaderSpan, ResponseSpans, Span};

/// Where the parts of an answer's head are.
#[derive(Clone, Copy, PartialEq, Eq)]
pub struct AnswerParts {
    /// Bytes of the head, with the empty lines in front of it and the one at its end.
    pub len: usize,
    pub status: u16,
    /// The value of the first Location field.
    pub location: Option<Span>,
    /// What the head says of the body; `Empty` where no field says anything, so that it goes on to the connection's
    /// end.
    pub body: Body,
}

/// What the bytes begin with.
#[derive(Clone, Copy)]
pub enum AnswerHead {
    /// A head within the limits, of a sound framing.
    Whole(AnswerParts),
    /// The head of an interim answer, of so many bytes.
    Interim(usize),
    /// Less than a head.
    More,
    /// They break the grammar or the framing.
    Malformed,
    /// They pass a limit.
    TooLarge,
}

/// What the bytes begin with. `room` is for the places of the fields, and what it held is lost.
///
/// Source: RFC 9112 4 to 6, RFC 9110 15; the limits are our own.
pub fn read_head(bytes: &[u8], room: &mut [HeaderSpan]) -> AnswerHead
    requires { FIELD_ROOM ≤ length room.old }
    ensures head { AnswerHeadIs bytes.now result }
    ensures room { length room.new ≡ length room.old }
{
    let window = &bytes[..bytes.len().min(HEAD_BYTES)];
    match spans::parse_response(window, room) {
        Ok(Status::Complete(head)) if head.headers > HEAD_FIELDS => AnswerHead::TooLarge,
        Ok(Status::Complete(head)) => judge(window, &room[..head.headers], head),
        Ok(Status::Partial) if bytes.len() > HEAD_BYTES => AnswerHead::TooLarge,
        Ok(Status::Partial) => AnswerHead::More,
        Err(_) => AnswerHead::Malformed,
    }
}

/// What bytes begin with, by the fields of the head that the first of them, as many as a head may have, begin with.
fn judge(window: &[u8], fields: &[HeaderSpan], head: ResponseSpans) -> AnswerHead
    requires { HasResponseSpans window.now fields.now head }
    ensures { (bytes : List ℕ) → window.now ≡ take HEAD_BYTES bytes → AnswerHeadIs bytes result }
{
    if is_interim(head.code) {
        return AnswerHead::Interim(head.len);
    }
    let body = match frame_of(window, fields, head.code) {
        Frame::NoBody => Body::Empty,
        Frame::Sized(length) => Body::Sized(length),
        Frame::Chunked => Body::Chunked,
        Frame::TooLong => return AnswerHead::TooLarge,
        Frame::Broken => return AnswerHead::Malformed,
    };
    AnswerHead::Whole(AnswerParts {
        len: head.len,
        status: head.code,
        location: framing::first_named(window, fields, b"location"),
        body,
    })
}

/// How the answer with this status and these fields is framed.
fn frame_of(bytes: &[u8], fields: &[HeaderSpan], status: u16) -> Frame
    requires { All (IsHeaderWithin (length bytes.now)) fields.now }
    ensures { result ≡ frame_behind status (map (header_bytes bytes.now) fields.now) }
{
    if is_bodiless(status) {
        Frame::Sized(0)
    } else {
        framing::frame_of(bytes, fields)
    }
}

/// Whether another answer follows behind one of this status.
#[tactic(auto, unfolding(crate::specs::Responses::is_interim))]
fn is_interim(status: u16) -> bool
    ensures { result ≡ is_interim status }
{
    status >= 100 && status < 200
}

/// Whether an answer of this status has no body, whatever its fields say.
#[tactic(auto, unfolding(crate::specs::Responses::is_bodiless))]
fn is_bodiless(status: u16) -> bool
    ensures { result ≡ is_bodiless status }
{
    status == 204 || status == 304
}
