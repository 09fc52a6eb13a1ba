//! The head of an answer, put together in room that was taken beforehand, so that telling takes no memory.
ghost use Rattle.std.specs.Prelude.{◌≡◌, ◌⊎◌, ◌≤◌, ◌+◌, ◌++◌, [], length, codes, decimal, IfOk};
ghost use Rattle.lcm_replies.specs.declared.outgoing.TheConstants.{ROOM};
ghost use Rattle.lcm_replies.specs.Response.{reason, field, optional_field, status_line, media_type, content_fields};
ghost use Rattle.lcm_replies.specs.Response.{last_field, head_text};

use crate::reply::Reply;
use itoa::Buffer;
use std::alloc::{AllocError, Global};
use std::marker::Model;
use vnfm_base::{Line, Name};

/// Bytes of the room: the longest head, and the body of nearly every answer behind it.
const ROOM: usize = 65_536;

/// The bytes of an answer so far. A contract sees them as a list.
#[derive(Drop)]
pub struct Outgoing {
    bytes: Vec<u8>,
}

impl Model for Outgoing {
    ghost use Rattle.std.specs.Prelude.{ℕ, List, ◌≤◌, vec_capacity};
    ghost use Rattle.lcm_replies.specs.declared.outgoing.TheConstants.{ROOM};

    ghost Value = { List ℕ };

    ghost view = { λ o. o.bytes.items };

    ghost invariant = { λ o. ROOM ≤ vec_capacity o.bytes };
}

impl Outgoing {
    /// Room for an answer, with none in it. `AllocError` is want of memory.
    ///
    /// Source: own rule.
    pub fn new(alloc: Global) -> Result<Outgoing, AllocError>
        ensures { IfOk result (λ o. o ≡ []) }
    {
        Ok(Outgoing {
            bytes: Vec::with_capacity(alloc, ROOM)?,
        })
    }

    /// The bytes so far.
    pub(crate) fn as_slice(&self) -> &[u8]
        ensures { result.now ≡ self.now }
    {
        self.bytes.as_slice()
    }

    /// Makes it the head of this reply, with a body of so many bytes.
    #[tactic(auto, unfolding(crate::specs::Response::head_text))]
    pub(crate) fn set_head(&mut self, reply: &Reply, size: usize)
        ensures head { self.new ≡ head_text reply.now size }
        ensures short { length self.new ≤ 4096 }
    {
        self.clear();
        self.put_status(reply.status);
        self.put_location(&reply.location);
        self.put_allow(&reply.allow);
        self.put_content(reply.status, reply.problem, size);
        self.put_last(reply.last);
        self.put(b"\r\n");
    }

    /// Adds as much of the body as there is room for, and gives the rest.
    pub(crate) fn put_front<'a>(&mut self, body: &'a [u8]) -> &'a [u8]
        requires { length self.old ≤ ROOM }
        ensures whole { self.old ++ body.now ≡ self.new ++ result.now }
        ensures most { (result.now ≡ []) ⊎ (length self.new ≡ ROOM) }
        ensures fits { length self.new ≤ ROOM }
    {
        let n = body.len().min(ROOM - self.bytes.len());
        let (front, rest) = body.split_at(n);
        self.put(front);
        rest
    }

    /// Forgets the bytes so far.
    fn clear(&mut self)
        ensures { self.new ≡ [] }
    {
        self.bytes.clear();
    }

    /// Adds these bytes.
    fn put(&mut self, bytes: &[u8])
        requires { length self.old + length bytes.now ≤ ROOM }
        ensures { self.new ≡ self.old ++ bytes.now }
    {
        match self.bytes.extend_from_slice(bytes) {
            Ok(()) => {}
            Err(_) => unreachable!(),
        }
    }

    /// Adds a field line.
    #[tactic(auto, unfolding(crate::specs::Response::field))]
    fn put_field(&mut self, name: &[u8], value: &[u8])
        requires { length self.old + length name.now + length value.now + 4 ≤ ROOM }
        ensures bytes { self.new ≡ self.old ++ field name.now value.now }
        ensures length { length self.new ≡ length self.old + length name.now + length value.now + 4 }
    {
        self.put(name);
        self.put(b": ");
        self.put(value);
        self.put(b"\r\n");
    }

    /// Adds the status line.
    #[tactic(auto, unfolding(crate::specs::Response::status_line))]
    fn put_status(&mut self, status: u16)
        requires { length self.old ≤ 60000 }
        ensures bytes { self.new ≡ self.old ++ status_line status }
        ensures short { length self.new ≤ length self.old + 100 }
    {
        let mut digits = Buffer::new();
        self.put(b"HTTP/1.1 ");
        self.put(digits.format(status).as_bytes());
        self.put(b" ");
        self.put(reason(status).as_bytes());
        self.put(b"\r\n");
    }

    fn put_location(&mut self, location: &Option<Line>)
        requires { length self.old ≤ 60000 }
        ensures bytes { self.new ≡ self.old ++ optional_field (codes "Location") location.now }
        ensures short { length self.new ≤ length self.old + 2100 }
    {
        if let Some(line) = location {
            self.put_field(b"Location", line.as_bytes());
        }
    }

    fn put_allow(&mut self, allow: &Option<Name>)
        requires { length self.old ≤ 62500 }
        ensures bytes { self.new ≡ self.old ++ optional_field (codes "Allow") allow.now }
        ensures short { length self.new ≤ length self.old + 300 }
    {
        if let Some(name) = allow {
            self.put_field(b"Allow", name.as_bytes());
        }
    }

    fn put_length(&mut self, size: usize)
        requires { length self.old ≤ 63500 }
        ensures bytes { self.new ≡ self.old ++ field (codes "Content-Length") (decimal size) }
        ensures short { length self.new ≤ length self.old + 60 }
    {
        let mut digits = Buffer::new();
        self.put_field(b"Content-Length", digits.format(size).as_bytes());
    }

    fn put_content(&mut self, status: u16, problem: bool, size: usize)
        requires { length self.old ≤ 63000 }
        ensures bytes { self.new ≡ self.old ++ content_fields status problem size }
        ensures short { length self.new ≤ length self.old + 160 }
    {
        if status == 204 {
            return;
        }
        if size == 0 {
            self.put_length(size);
            return;
        }
        self.put_described(problem, size);
    }

    fn put_described(&mut self, problem: bool, size: usize)
        requires { length self.old ≤ 63000 }
        ensures bytes { self.new ≡ self.old ++ (field (codes "Content-Type") (media_type problem)
            ++ field (codes "Content-Length") (decimal size)) }
        ensures short { length self.new ≤ length self.old + 160 }
    {
        self.put_field(b"Content-Type", media_type(problem).as_bytes());
        self.put_length(size);
    }

    fn put_last(&mut self, last: bool)
        requires { length self.old ≤ 65000 }
        ensures bytes { self.new ≡ self.old ++ last_field last }
        ensures short { length self.new ≤ length self.old + 19 }
    {
        if last {
            self.put_field(b"Connection", b"close");
        }
    }
}

fn media_type(problem: bool) -> &'static str
    ensures text { result.now ≡ media_type problem }
    ensures short { length result.now ≤ 30 }
{
    if problem {
        "application/problem+json"
    } else {
        "application/json"
    }
}

/// The reason of a status.
///
/// Source: RFC 9110 15 (Status Codes).
#[tactic(auto, unfolding(crate::specs::Response::reason))]
fn reason(status: u16) -> &'static str
    ensures text { result.now ≡ reason status }
    ensures short { length result.now ≤ 30 }
{
    match status {
        200 => "OK",
        201 => "Created",
        202 => "Accepted",
        204 => "No Content",
        400 => "Bad Request",
        404 => "Not Found",
        405 => "Method Not Allowed",
        409 => "Conflict",
        413 => "Content Too Large",
        415 => "Unsupported Media Type",
        422 => "Unprocessable Content",
        500 => "Internal Server Error",
        503 => "Service Unavailable",
        507 => "Insufficient Storage",
        _ => "",
    }
}
