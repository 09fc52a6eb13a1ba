//! A reply, and those that no route has for its own.
ghost use Rattle.std.specs.Prelude.{◌≡◌, ◌++◌, IfOk, string_bytes};
ghost use Rattle.lcm_replies.specs.Replies.{bare, malformed, refusal, shown, too_large};
ghost use Rattle.vnfm_base.specs.Text.{IsLine};

use json_members::problem_view;
use std::alloc::{AllocError, Global};
use vnfm_base::{Bytes, Line, Name};

/// An answer to a request.
///
/// Source: RFC 9110 15 (Status Codes).
pub struct Reply {
    /// The status code.
    pub status: u16,
    /// Where what was made is found.
    pub location: Option<Line>,
    /// The methods of the path, for 405.
    pub allow: Option<Name>,
    /// Whether the body says what is wrong.
    pub problem: bool,
    /// The body; empty for 500 and 503, whose bodies are fixed.
    pub body: Bytes,
    /// Whether the connection ends with it.
    pub last: bool,
}

impl Drop for Reply {
    // Written out, so that the proof of a caller calls it and doesn't take the value apart at each of its ends.
    fn drop(self) {
        let Reply {
            status: _,
            location: _,
            allow: _,
            problem: _,
            body: _,
            last: _,
        } = self;
    }
}

/// A refusal with this status and this detail, and whether the connection ends with it. `AllocError` is want of memory.
///
/// Source: RFC 9457 3 (ProblemDetails).
#[tactic(auto, unfolding(crate::specs::Replies::refusal))]
pub fn refusal(alloc: Global, status: u16, detail: &str, last: bool) -> Result<Reply, AllocError>
    ensures { IfOk result (λ reply. reply ≡ refusal status detail.now last) }
{
    let body = problem_view(alloc, status, detail)?;
    Ok(Reply {
        status,
        location: None,
        allow: None,
        problem: true,
        body,
        last,
    })
}

/// A refusal with this status, whose detail says this of this word, and whether the connection ends with it.
/// `AllocError` is want of memory.
///
/// Source: RFC 9457 3 (ProblemDetails).
pub fn refusal_about(
    alloc: Global,
    status: u16,
    what: &str,
    word: &str,
    last: bool,
) -> Result<Reply, AllocError>
    ensures { IfOk result (λ reply. reply ≡ refusal status (what.now ++ word.now) last) }
{
    let mut detail = String::from_str(alloc, what)?;
    detail.push_str(word)?;
    refusal(alloc, status, detail.as_str(), last)
}

/// The answer that shows this body.
///
/// Source: RFC 9110 15.3.1.
#[tactic(auto, unfolding(crate::specs::Replies::shown))]
pub fn shown(body: Bytes, last: bool) -> Reply
    ensures { result ≡ shown body last }
{
    Reply {
        status: 200,
        location: None,
        allow: None,
        problem: false,
        body,
        last,
    }
}

/// Where what was made is found.
///
/// Condition: the path is a line.
/// Source: RFC 9110 10.2.2.
pub fn location(path: String) -> Line
    requires { IsLine (string_bytes path) }
    ensures { result ≡ string_bytes path }
{
    match Line::of_string(path) {
        Some(line) => line,
        None => unreachable!(),
    }
}

/// The refusal of bytes that are no request. `AllocError` is want of memory.
///
/// Source: RFC 9110 15.5.1.
pub fn malformed(alloc: Global) -> Result<Reply, AllocError>
    ensures { IfOk result (λ reply. reply ≡ malformed) }
{
    refusal(alloc, 400, "malformed request", true)
}

/// The refusal of bytes that pass a limit. `AllocError` is want of memory.
///
/// Source: RFC 9110 15.5.14.
pub fn too_large(alloc: Global) -> Result<Reply, AllocError>
    ensures { IfOk result (λ reply. reply ≡ too_large) }
{
    refusal(alloc, 413, "request too large", true)
}

/// A reply that is told without memory: its body is fixed by its status.
///
/// Source: RFC 9110 15.6.1, 15.6.4.
pub fn bare(alloc: Global, status: u16) -> Reply
    ensures { result ≡ bare status }
{
    Reply {
        status,
        location: None,
        allow: None,
        problem: true,
        body: Bytes::empty(alloc),
        last: true,
    }
}
