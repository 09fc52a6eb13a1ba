//! The client in hand: what of its request was read, and what of its answer was written.
ghost use Rattle.std.specs.Prelude.{◌≡◌, ◌≤◌, ◌++◌, ℕ, List, IfSome, OnOk, take, drop, length, true};
ghost use Rattle.http_frames.specs.declared.TheConstants.{FIELD_ROOM};
ghost use Rattle.request_pool.specs.Hands.{EndsFeed, Gives, PutsHome, IsTold, close_line, is_awaited};
ghost use Rattle.request_pool.specs.Clients.{ClientState};

use crate::answers::{AnswerHead, answer_head};
use crate::client::Client;
use http_frames::FIELD_ROOM;
use http_frames::chunks::rest;
use httparse::spans::HeaderSpan;
use std::alloc::{AllocError, Global};
use std::marker::Model;

/// The line that says that a connection ends with an answer (RFC 9112 9.6).
const CLOSE_LINE: &[u8] = b"Connection: close\r\n";

/// What of an answer was written.
#[derive(Clone, Copy, PartialEq, Eq, Debug)]
pub enum Answering {
    /// Nothing yet.
    Awaited,
    /// So many bytes of it are to come.
    Within(usize),
    /// All of it.
    Whole,
}

/// A client whose request is fed. A contract sees where it stands between its requests, the client, how many of its
/// bytes are fed and how many of these were read, how it ends, and what of its answer was written.
#[derive(Drop)]
pub struct Hand {
    slot: usize,
    client: Client,
    len: usize,
    given: usize,
    closes: bool,
    lone: bool,
    answer: Answering,
}

impl Model for Hand {
    ghost use Rattle.request_pool.specs.Hands.{HandState, IsInHand};

    ghost Value = { HandState };

    ghost view = { λ h. record {
      slot = h.slot;
      client = h.client;
      len = h.len;
      given = h.given;
      closes = h.closes;
      lone = h.lone;
      answer =
          h.answer;
    } };

    ghost invariant = { λ h. IsInHand (record {
      slot = h.slot;
      client = h.client;
      len = h.len;
      given = h.given;
      closes = h.closes;
      lone = h.lone;
      answer =
          h.answer;
    }) };
}

impl Hand {
    /// This client, of which so many bytes are fed. `closes` says whether it is closed behind its answer, and `lone`
    /// whether nothing else is fed behind it.
    pub fn begun(slot: usize, client: Client, len: usize, closes: bool, lone: bool) -> Hand
        requires { len ≤ length client.held }
        ensures { result ≡ record {
          slot = slot;
          client = client;
          len = len;
          given = 0;
          closes = closes;
          lone = lone;
          answer = Answering.Awaited;
        } }
    {
        Hand {
            slot,
            client,
            len,
            given: 0,
            closes,
            lone,
            answer: Answering::Awaited,
        }
    }

    /// Where the client stands between its requests.
    pub fn slot(&self) -> usize
        ensures { result ≡ self.now.slot }
    {
        self.slot
    }

    /// Whether nothing else is fed behind it on this connection.
    pub fn is_lone(&self) -> bool
        ensures { result ≡ self.now.lone }
    {
        self.lone
    }

    /// What of its answer was written.
    pub fn answer(&self) -> Answering
        ensures { result ≡ self.now.answer }
    {
        self.answer
    }

    /// The client.
    pub fn client(&self) -> &Client
        ensures { result.now ≡ self.now.client }
    {
        &self.client
    }

    /// The client is closed behind its answer.
    pub fn close(&mut self)
        ensures { self.new ≡ record self.old { closes = true } }
    {
        self.closes = true;
    }

    /// The first `count` of the bytes that are to go out to it went out.
    pub fn went(&mut self, count: usize)
        requires { count ≤ length self.old.client.out }
        ensures { self.new ≡ record self.old { client = record self.old.client { out = drop count self.old.client.out } } }
    {
        self.client.went(count);
    }

    /// Nothing of what is fed is left to be read, and the client is closed behind its answer.
    pub fn skip(&mut self)
        ensures { self.new ≡ record self.old { given = self.old.len; closes = true } }
    {
        self.given = self.len;
        self.closes = true;
    }

    /// Puts the next bytes of what is fed to the front of `into`, and gives how many: as many as there is room for, or
    /// all that are left.
    pub fn give(&mut self, into: &mut [u8]) -> usize
        ensures { Gives into.old into.new result self.old self.new }
    {
        let count = into.len().min(self.len - self.given);
        let end = self.given + count;
        into[..count].copy_from_slice(&self.client.held()[self.given..end]);
        self.given = end;
        count
    }

    /// These bytes of the answer are to go out to the client. Where it is closed behind the answer, the line that says
    /// so goes with them, unless the answer has it.
    ///
    /// Without memory a front of them is to go out.
    pub fn put(&mut self, bytes: &[u8]) -> Result<(), AllocError>
        ensures { OnOk result (PutsHome bytes.now self.old self.new) }
    {
        let awaited = is_awaited(self.answer);
        let head = if awaited { answer_head(bytes) } else { None };
        tell(&mut self.client, bytes, head, self.closes & awaited)?;
        self.answer = after(self.answer, head, bytes.len());
        Ok(())
    }

    /// The client, once what was fed is passed: what stands behind it is looked at.
    pub fn end(self, alloc: Global, room: &mut [HeaderSpan]) -> Client
        requires { FIELD_ROOM ≤ length room.old }
        ensures { EndsFeed self result }
    {
        let closes = self.closes;
        let len = self.len;
        let mut client = self.client;
        client.pass(alloc, len, room);
        if closes {
            client.close();
        }
        client
    }
}

/// Whether nothing of the answer was written yet.
fn is_awaited(answer: Answering) -> bool
    ensures { result ≡ is_awaited answer }
{
    match answer {
        Answering::Awaited => true,
        Answering::Within(_) | Answering::Whole => false,
    }
}

/// These bytes of an answer are to go out to this client, and with them the line that says that the connection ends
/// with the answer, where it does, the head is among them, and it isn't said already.
fn tell(
    client: &mut Client,
    bytes: &[u8],
    head: Option<AnswerHead>,
    closes: bool,
) -> Result<(), AllocError>
    ensures told { OnOk result ((told : List ℕ) × IsTold closes bytes.now told
        × (client.new ≡ record client.old { out = client.old.out ++ told })) }
    ensures kept { client.new.held ≡ client.old.held }
{
    match line_place(head, closes, bytes.len()) {
        None => client.put(bytes),
        Some(at) => tell_with_line(client, bytes, at),
    }
}

/// These bytes are to go out to this client, and the line among them, at this place.
fn tell_with_line(client: &mut Client, bytes: &[u8], at: usize) -> Result<(), AllocError>
    requires { at ≤ length bytes.now }
    ensures told { OnOk result (client.new ≡ record client.old {
      out = client.old.out
          ++ (take at bytes.now ++ close_line ++ drop at bytes.now);
    }) }
    ensures kept { client.new.held ≡ client.old.held }
{
    client.put(&bytes[..at])?;
    client.put(CLOSE_LINE)?;
    client.put(rest(bytes, at))
}

/// Where the line goes that says that the connection ends with an answer of this head; none where it doesn't, or it is
/// said already.
fn line_place(head: Option<AnswerHead>, closes: bool, most: usize) -> Option<usize>
    ensures { IfSome result (λ at. (closes ≡ true) × (at ≤ most)) }
{
    let head = head?;
    if !closes {
        return None;
    }
    if head.closes {
        return None;
    }
    Some(head.len.saturating_sub(2).min(most))
}

/// What of an answer was written behind so many bytes more, whose head is this where nothing was written before.
fn after(answer: Answering, head: Option<AnswerHead>, written: usize) -> Answering {
    match (answer, head) {
        (Answering::Awaited, Some(head)) => less(head.whole, written),
        (Answering::Within(left), _) => less(left, written),
        _ => Answering::Whole,
    }
}

/// What is left of so many bytes where so many were written.
fn less(left: usize, written: usize) -> Answering {
    if left > written {
        Answering::Within(left - written)
    } else {
        Answering::Whole
    }
}
