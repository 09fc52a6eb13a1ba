//! Reads the head of an answer that comes in pieces, without reading known lines again.
ghost use Rattle.std.specs.Prelude.{◌≡◌, ◌≤◌, ℕ, List, [], ◌∷◌, ◌++◌, length, IsTrue, OnOk};
ghost use Rattle.http_client.specs.declared.heads.AnswerHead.TheVariants as heads;
ghost use Rattle.http_client.specs.Reading.{AnswerHeadIs, AreWholeLines, HasReadLines};

use crate::heads::{AnswerHead, read_head};
use http_frames::{FIELD_ROOM, HEAD_BYTES};
use httparse::Status;
use httparse::spans::{self, HeaderSpan};
use memchr::memrchr;
use std::alloc::{AllocError, Global};

/// Bytes that come before whole lines of a head are looked for again. A head of our peers has no more.
const LINES_BYTES: usize = 1_024;

/// What is known of the lines of a head. Of a long one only the lines behind those that are known are read again behind
/// each piece.
#[derive(Drop)]
pub struct LineReader {
    // A copy of the lines that are looked at, with an empty line behind them.
    lines: Vec<u8>,
    /// Bytes of the lines that are known to be a status line and fields; 0 where none are.
    pub passed: usize,
    // Bytes with which whole lines are looked for again.
    due: usize,
}

impl LineReader {
    /// A reader that has read nothing.
    pub fn new(alloc: Global) -> LineReader
        ensures { (bytes : List ℕ) → HasReadLines bytes result }
    {
        LineReader {
            lines: Vec::new(alloc),
            passed: 0,
            due: LINES_BYTES,
        }
    }

    /// Forgets what was read.
    pub fn renew(&mut self)
        ensures { (bytes : List ℕ) → HasReadLines bytes self.new }
    {
        self.passed = 0;
        self.due = LINES_BYTES;
    }

    /// What the bytes begin with, which are those of the last call and what came since: as `read_head` says.
    pub fn read(&mut self, bytes: &[u8], room: &mut [HeaderSpan]) -> AnswerHead
        requires room { FIELD_ROOM ≤ length room.old }
        requires lines { HasReadLines bytes.now self.old }
        ensures head { AnswerHeadIs bytes.now result }
        ensures kept { HasReadLines bytes.now self.new }
        ensures room { length room.new ≡ length room.old }
    {
        if self.goes_on(bytes, room) {
            self.pass_lines(bytes, room);
            return AnswerHead::More;
        }
        match read_head(bytes, room) {
            AnswerHead::More => {
                self.pass_lines(bytes, room);
                AnswerHead::More
            }
            head => head,
        }
    }

    /// Whether the bytes are less than a head, by the lines behind those that are known.
    fn goes_on(&self, bytes: &[u8], room: &mut [HeaderSpan]) -> bool
        requires { HasReadLines bytes.now self.now }
        ensures goes_on { IsTrue result → AnswerHeadIs bytes.now heads.More }
        ensures room { length room.new ≡ length room.old }
    {
        if self.passed == 0 || bytes.len() > HEAD_BYTES {
            return false;
        }
        matches!(
            spans::parse_headers_from(bytes, self.passed, room),
            Ok(Status::Partial)
        )
    }

    /// Looks for more lines that are whole, where many bytes came since that was done. Without memory none are found.
    fn pass_lines(&mut self, bytes: &[u8], room: &mut [HeaderSpan])
        requires { HasReadLines bytes.now self.old }
        ensures kept { HasReadLines bytes.now self.new }
        ensures room { length room.new ≡ length room.old }
    {
        if bytes.len() < self.due {
            return;
        }
        self.due = bytes.len().saturating_add(LINES_BYTES);
        let Some(n) = memrchr(b'\n', bytes) else {
            return;
        };
        if are_whole_lines(&mut self.lines, &bytes[..n + 1], room) {
            self.passed = n + 1;
        }
    }
}

/// Whether the bytes, whose last one is a line feed, are a status line and whole fields. `lines` is for a copy of them.
fn are_whole_lines(lines: &mut Vec<u8>, bytes: &[u8], room: &mut [HeaderSpan]) -> bool
    requires { (front : List ℕ) × (bytes.now ≡ front ++ 10 ∷ []) }
    ensures whole { IsTrue result → AreWholeLines bytes.now }
    ensures room { length room.new ≡ length room.old }
{
    let Ok(()) = copy_lines(lines, bytes) else {
        return false;
    };
    match spans::parse_response(lines, room) {
        Ok(Status::Complete(head)) => head.len == lines.len(),
        _ => false,
    }
}

/// Copies the bytes, and an empty line behind them.
fn copy_lines(lines: &mut Vec<u8>, bytes: &[u8]) -> Result<(), AllocError>
    ensures { OnOk result (lines.new.items ≡ bytes.now ++ 10 ∷ []) }
{
    lines.clear();
    lines.extend_from_slice(bytes)?;
    lines.extend_from_slice(b"\n")
}
