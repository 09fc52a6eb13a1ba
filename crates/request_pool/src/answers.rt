//! What the first bytes of an answer say of it.
ghost use Rattle.std.specs.Prelude.{◌≤◌, IfSome, length};

use http_frames::chunks::rest;

/// What stands behind the last field of a head.
const HEAD_END: &[u8] = b"\r\n\r\n";

/// What stands in front of the length of a body.
const LENGTH: &[u8] = b"\r\nContent-Length: ";

/// The line that says that a connection ends with the answer, as an answer tells it, and the empty line behind it.
const LAST_LINES: &[u8] = b"\r\nConnection: close\r\n\r\n";

/// What the first bytes of an answer, its head among them, say of it.
#[derive(Clone, Copy, PartialEq, Eq, Debug)]
pub struct AnswerHead {
    /// Bytes of the head, with the empty line at its end.
    pub len: usize,
    /// Bytes of the answer; the most where its head says no length, so that its end is that of the connection.
    pub whole: usize,
    /// Whether it is 202: what was asked for is under way.
    pub accepted: bool,
    /// Whether it says that the connection ends with it.
    pub closes: bool,
}

/// The head of the answer that begins so; none where its end isn't there.
pub fn answer_head(bytes: &[u8]) -> Option<AnswerHead>
    ensures { IfSome result (λ h. (4 ≤ h.len) × (h.len ≤ length bytes.now) × (h.len ≤ h.whole)) }
{
    let len = end_of(bytes, HEAD_END)?;
    let head = &bytes[..len];
    let body = match end_of(head, LENGTH) {
        Some(at) => number_at(rest(head, at)),
        None if head.starts_with(b"HTTP/1.1 204 ") => 0,
        None => usize::MAX,
    };
    Some(AnswerHead {
        len,
        whole: len.saturating_add(body),
        accepted: head.starts_with(b"HTTP/1.1 202 "),
        closes: head.ends_with(LAST_LINES),
    })
}

/// Where these bytes end for the first time in the others.
fn end_of(bytes: &[u8], word: &[u8]) -> Option<usize>
    ensures { IfSome result (λ n. (length word.now ≤ n) × (n ≤ length bytes.now)) }
{
    for at in 0..bytes.len() {
        if rest(bytes, at).starts_with(word) {
            return Some(at + word.len());
        }
    }
    None
}

/// The number that the digits at the front say; the greatest where it is more.
fn number_at(bytes: &[u8]) -> usize {
    let mut number = 0usize;
    for byte in bytes {
        if !byte.is_ascii_digit() {
            return number;
        }
        number = number
            .saturating_mul(10)
            .saturating_add(usize::from(byte.saturating_sub(b'0')));
    }
    number
}
