//! What a request's head says of its connection is written over, since a gateway decides on each of its connections
//! itself (RFC 9110 7.6.1).
ghost use Rattle.std.specs.Prelude.{◌≡◌, ◌≤◌, length, IsTrue, option_map};
ghost use Rattle.httparse.specs.Spans.{span_bytes};
ghost use Rattle.request_pool.specs.Gateway.{SaysNoClose, open_parts};

use http_frames::head::{Body, Head, HeadParts, read_head};
use http_frames::{FIELD_ROOM, HEAD_FIELDS};
use httparse::Status;
use httparse::spans::{self, HeaderSpan, RequestSpans, Span};

/// What stands for the name of a field that speaks of the connection: as many letters, and a name which nothing reads.
const WRITTEN_OVER: [u8; 10] = *b"x-was-hop-";

/// The name of the field that speaks of the connection, in any case of letters.
const CONNECTION: &[u8] = b"connection";

/// What stands behind the target of a request of HTTP/1.0.
const OLD_VERSION: &[u8] = b" HTTP/1.0";

/// Makes `over` a copy of this head, whose parts these are, in which nothing asks for the end of the connection: the
/// names of its Connection fields and the digit of an older version are written over, length for length. Whether that
/// could be done: where not, there was no memory, or the grammar puts them elsewhere.
///
/// `room` is for the places of header fields, and what it held is lost.
pub fn write_over(
    head: &[u8],
    parts: HeadParts,
    over: &mut Vec<u8>,
    room: &mut [HeaderSpan],
) -> bool
    requires { FIELD_ROOM ≤ length room.old }
    ensures { IsTrue result → SaysNoClose head.now parts over.new.items }
{
    over.clear();
    if over.extend_from_slice(head).is_err() {
        return false;
    }
    if let Ok(Status::Complete(spans)) = spans::parse_request(head, room) {
        rename_fields(over, head, room, spans);
        renew_version(over, parts.target);
    }
    is_same_but_open(head, parts, over, room)
}

/// Writes over the names of the fields that speak of the connection.
fn rename_fields(over: &mut [u8], head: &[u8], room: &[HeaderSpan], spans: RequestSpans) {
    for field in room.iter().take(spans.headers.min(HEAD_FIELDS)) {
        rename(over, head, field.name);
    }
}

/// Writes over this name, where it is that of a field that speaks of the connection.
fn rename(over: &mut [u8], head: &[u8], name: Span) {
    let Some(word) = head.get(name.start..name.end) else {
        return;
    };
    if word.eq_ignore_ascii_case(CONNECTION) {
        put_at(over, name.start, &WRITTEN_OVER);
    }
}

/// Writes over the digit of an older version.
fn renew_version(over: &mut [u8], target: Span) {
    let Some(behind) = over.get(target.end..target.end.saturating_add(OLD_VERSION.len())) else {
        return;
    };
    if behind == OLD_VERSION {
        put_at(over, target.end, b" HTTP/1.1");
    }
}

/// Writes these bytes over those from there on, as far as there are any.
fn put_at(over: &mut [u8], at: usize, bytes: &[u8]) {
    for (i, byte) in bytes.iter().enumerate() {
        if let Some(place) = over.get_mut(at.saturating_add(i)) {
            *place = *byte;
        }
    }
}

/// Whether these bytes are a head with these parts, but that it doesn't ask for the end of the connection, and each
/// part is what it was.
fn is_same_but_open(head: &[u8], parts: HeadParts, over: &[u8], room: &mut [HeaderSpan]) -> bool
    requires { FIELD_ROOM ≤ length room.old }
    ensures { IsTrue result → SaysNoClose head.now parts over.now }
{
    let Head::Whole(found) = read_head(over, room) else {
        return false;
    };
    if !is_open_form(found, parts) {
        return false;
    }
    if over.len() != head.len() {
        return false;
    }
    if !is_same_part(head, over, parts.method) {
        return false;
    }
    if !is_same_part(head, over, parts.target) {
        return false;
    }
    is_same_media(head, over, parts.media)
}

/// Whether the first parts are the second, of a head that doesn't ask for the end of the connection.
fn is_open_form(found: HeadParts, parts: HeadParts) -> bool
    ensures { IsTrue result → found ≡ open_parts parts }
{
    if found.closes {
        return false;
    }
    if found.len != parts.len {
        return false;
    }
    if !is_same_span(found.method, parts.method) {
        return false;
    }
    if !is_same_span(found.target, parts.target) {
        return false;
    }
    if !is_same_span_if_any(found.media, parts.media) {
        return false;
    }
    is_same_body(found.body, parts.body)
}

/// Whether both are the same place.
fn is_same_span(one: Span, other: Span) -> bool
    ensures { IsTrue result → one ≡ other }
{
    if one.start != other.start {
        return false;
    }
    one.end == other.end
}

/// Whether both are the same place, or none.
fn is_same_span_if_any(one: Option<Span>, other: Option<Span>) -> bool
    ensures { IsTrue result → one ≡ other }
{
    match (one, other) {
        (None, None) => true,
        (Some(one), Some(other)) => is_same_span(one, other),
        _ => false,
    }
}

/// Whether both announce the same of a body.
fn is_same_body(one: Body, other: Body) -> bool
    ensures { IsTrue result → one ≡ other }
{
    match (one, other) {
        (Body::Empty, Body::Empty) => true,
        (Body::Chunked, Body::Chunked) => true,
        (Body::Sized(one), Body::Sized(other)) => one == other,
        _ => false,
    }
}

/// The parts of a head that doesn't ask for the end of the connection.
pub(crate) fn open_parts(parts: HeadParts) -> HeadParts
    ensures { result ≡ open_parts parts }
{
    HeadParts {
        len: parts.len,
        method: parts.method,
        target: parts.target,
        media: parts.media,
        body: parts.body,
        closes: false,
    }
}

/// Whether this part of both is the same, where there is one.
fn is_same_media(one: &[u8], other: &[u8], part: Option<Span>) -> bool
    ensures { IsTrue result → option_map (span_bytes other.now) part ≡ option_map (span_bytes one.now) part }
{
    match part {
        None => true,
        Some(part) => is_same_part(one, other, part),
    }
}

/// Whether this part of both is the same.
fn is_same_part(one: &[u8], other: &[u8], part: Span) -> bool
    ensures { IsTrue result → span_bytes other.now part ≡ span_bytes one.now part }
{
    if part.start > part.end || part.end > one.len() || part.end > other.len() {
        return false;
    }
    part.of(one) == part.of(other)
}
