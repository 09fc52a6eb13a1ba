//! Which framing a request's header fields announce, and what else they ask for.
ghost use Rattle.std.specs.Prelude.{◌≡◌, ℕ, ◌+◌, ◌*◌, ◌<◌, ◌≤◌, ◌++◌, ◌∷◌, [], List, All, map, min, length, IfSome};
ghost use Rattle.std.specs.Prelude.{IsTrue, option_map};
ghost use Rattle.std.specs.Str.Parse.{digits_value};
ghost use Rattle.std.specs.Char.{digit_value, is_ascii_digit};
ghost use Rattle.httparse.specs.Grammar.{AllPass};
ghost use Rattle.httparse.specs.Spans.{IsHeaderWithin, header_bytes, IsWithin, span_bytes};
ghost use Rattle.http_frames.specs.Framing.{is_same_word, values_of, is_length, announced, coded, frame_of_fields};
ghost use Rattle.http_frames.specs.Framing.{has_close, asks_to_close, first_value, media};
ghost use Rattle.http_frames.specs.Answers.{HoldsValues};

use crate::BODY_BYTES;
use httparse::spans::{HeaderSpan, Span};

/// How a request's body is framed.
#[derive(Clone, Copy)]
pub enum Frame {
    /// No field announces a body.
    NoBody,
    /// This many bytes, at most `BODY_BYTES`.
    Sized(usize),
    /// Chunks, up to one of size 0 and a trailer.
    Chunked,
    /// More than `BODY_BYTES` bytes are announced.
    TooLong,
    /// The fields contradict each other, or name no length or another coding.
    Broken,
}

/// Where the values of the fields of one name are.
#[derive(Clone, Copy)]
pub enum Values {
    Absent,
    Once(Span),
    /// Two or more: where the first is.
    Several(Span),
}

/// How the request with these header fields is framed.
///
/// Source: RFC 9112 6.1 to 6.3; the limit and the refusal of lists are our own.
pub fn frame_of(buf: &[u8], headers: &[HeaderSpan]) -> Frame
    requires { All (IsHeaderWithin (length buf.now)) headers.now }
    ensures { result ≡ frame_of_fields (map (header_bytes buf.now) headers.now) }
{
    let lengths = values_named(buf, headers, b"content-length");
    let codings = values_named(buf, headers, b"transfer-encoding");
    match (lengths, codings) {
        (Values::Absent, Values::Absent) => Frame::NoBody,
        (Values::Once(value), Values::Absent) => sized_by(value.of(buf)),
        (Values::Absent, Values::Once(value)) => coded_by(value.of(buf)),
        _ => Frame::Broken,
    }
}

/// The framing by this value of a lone Content-Length.
fn sized_by(value: &[u8]) -> Frame
    ensures { result ≡ announced value.now }
{
    if !is_length(value) {
        return Frame::Broken;
    }
    let length = number_up_to(value);
    if length > BODY_BYTES {
        Frame::TooLong
    } else {
        Frame::Sized(length)
    }
}

/// Whether the value is decimal digits, one at least.
#[tactic(auto, unfolding(crate::specs::Framing::is_length))]
fn is_length(value: &[u8]) -> bool
    ensures is { result ≡ is_length value.now }
    ensures digits { IsTrue result → AllPass is_ascii_digit value.now }
{
    !value.is_empty() && value.iter().all(|b| b.is_ascii_digit())
}

/// The number that the digits give, or one more than `BODY_BYTES` where it is more.
fn number_up_to(digits: &[u8]) -> usize
    requires { AllPass is_ascii_digit digits.now }
    ensures { result ≡ min (digits_value 10 digits.now) (BODY_BYTES + 1) }
{
    let mut number = 0;
    for digit in digits {
        number = grown(number, *digit);
    }
    number
}

/// The number with one digit more, or one more than `BODY_BYTES` where it is more.
fn grown(number: usize, digit: u8) -> usize
    requires within { number ≤ BODY_BYTES + 1 }
    requires digit { IsTrue (is_ascii_digit digit) }
    ensures { result ≡ min (number * 10 + digit_value digit) (BODY_BYTES + 1) }
{
    (number * 10 + usize::from(digit.saturating_sub(b'0'))).min(BODY_BYTES + 1)
}

/// The framing by this value of a lone Transfer-Encoding.
#[tactic(auto, unfolding(crate::specs::Framing::coded))]
fn coded_by(value: &[u8]) -> Frame
    ensures { result ≡ coded value.now }
{
    if is_same_word(value, b"chunked") {
        Frame::Chunked
    } else {
        Frame::Broken
    }
}

/// Whether a Connection field asks for the connection to be closed.
///
/// Source: RFC 9112 9.6.
pub fn closes(buf: &[u8], headers: &[HeaderSpan]) -> bool
    requires { All (IsHeaderWithin (length buf.now)) headers.now }
    ensures { result ≡ asks_to_close (map (header_bytes buf.now) headers.now) }
{
    for header in headers {
        if asks(buf, header) {
            return true;
        }
    }
    false
}

/// Whether this field asks for the connection to be closed.
#[tactic(auto, using(crate::proofs::FieldLaws::asks_one))]
fn asks(buf: &[u8], header: &HeaderSpan) -> bool
    requires { IsHeaderWithin (length buf.now) header.now }
    ensures { result ≡ asks_to_close (header_bytes buf.now header.now ∷ []) }
{
    is_same_word(header.name.of(buf), b"connection") && has_close(header.value.of(buf))
}

/// Whether "close" is among the options of this value of Connection.
fn has_close(value: &[u8]) -> bool
    ensures { result ≡ has_close value.now }
{
    value
        .split(|b| matches!(*b, b',' | b' ' | b'\t'))
        .any(|option| is_same_word(option, b"close"))
}

/// Where the value of the first Content-Type field is.
///
/// Source: RFC 9110 8.3.
#[tactic(auto, unfolding(crate::specs::Framing::media))]
pub fn media_of(buf: &[u8], headers: &[HeaderSpan]) -> Option<Span>
    requires { All (IsHeaderWithin (length buf.now)) headers.now }
    ensures within { IfSome result (IsWithin (length buf.now)) }
    ensures value { option_map (span_bytes buf.now) result ≡ media (map (header_bytes buf.now) headers.now) }
{
    first_named(buf, headers, b"content-type")
}

/// Where the value of the first field of this name is, in any case of letters.
///
/// Source: RFC 9112 5.
pub fn first_named(buf: &[u8], headers: &[HeaderSpan], name: &[u8]) -> Option<Span>
    requires { All (IsHeaderWithin (length buf.now)) headers.now }
    ensures within { IfSome result (IsWithin (length buf.now)) }
    ensures value { option_map (span_bytes buf.now) result
        ≡ first_value (values_of name.now (map (header_bytes buf.now) headers.now)) }
{
    match values_named(buf, headers, name) {
        Values::Absent => None,
        Values::Once(only) => Some(only),
        Values::Several(first) => Some(first),
    }
}

/// Where the values of the fields of this name are.
fn values_named(buf: &[u8], headers: &[HeaderSpan], name: &[u8]) -> Values
    requires { All (IsHeaderWithin (length buf.now)) headers.now }
    ensures { HoldsValues buf.now result (values_of name.now (map (header_bytes buf.now) headers.now)) }
{
    let mut found = Values::Absent;
    for header in headers {
        found = found.with(buf, header, name);
    }
    found
}

impl Values {
    /// These values, and behind them that of this field where it has the name.
    fn with(self, buf: &[u8], header: &HeaderSpan, name: &[u8]) -> Values
        requires { IsHeaderWithin (length buf.now) header.now }
        ensures { (values : List (List ℕ)) → HoldsValues buf.now self values
            → HoldsValues buf.now result (values ++ values_of name.now (header_bytes buf.now header.now ∷ [])) }
    {
        if !is_same_word(header.name.of(buf), name) {
            return self;
        }
        match self {
            Values::Absent => Values::Once(header.value),
            Values::Once(first) => Values::Several(first),
            Values::Several(first) => Values::Several(first),
        }
    }
}

/// Whether the words are the same in any case of letters.
fn is_same_word(a: &[u8], b: &[u8]) -> bool
    ensures { result ≡ is_same_word a.now b.now }
{
    a.eq_ignore_ascii_case(b)
}
