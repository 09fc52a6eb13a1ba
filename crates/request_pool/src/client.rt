//! A client: its bytes that came and weren't fed, what they begin with, and its answers' bytes that didn't go out yet.
ghost use Rattle.std.specs.Prelude.{◌≡◌, ◌≤◌, ◌++◌, ℕ, List, length, take, drop, OnOk, OnErr, true};
ghost use Rattle.http_frames.specs.declared.TheConstants.{FIELD_ROOM};
ghost use Rattle.request_pool.specs.Clients.{CameTo, HasFed, IsOpened, KnowsFront, begun, is_open, opened};
ghost use Rattle.request_pool.specs.Gateway.{SaysNoClose};
ghost use Rattle.request_pool.specs.Fronts.{HasReadFront};

use crate::fronts::{Front, FrontReader, Place};
use crate::gateway::open_parts;
use crate::queue::Queue;
use http_frames::FIELD_ROOM;
use httparse::spans::HeaderSpan;
use lcm_events::Role;
use std::alloc::{AllocError, Global};
use std::marker::Model;

/// A client. A contract sees its role, its bytes that weren't fed, what they begin with where that is known, the bytes
/// that are to go out to it, how many requests of it were fed, and whether it is closed behind what goes out.
#[derive(Drop)]
pub struct Client {
    role: Role,
    held: Queue,
    reader: FrontReader,
    front: Option<Front>,
    out: Queue,
    requests: u32,
    closing: bool,
}

impl Model for Client {
    ghost use Rattle.request_pool.specs.Clients.{ClientState, KnowsFront};
    ghost use Rattle.request_pool.specs.Fronts.{HasReadFront};

    ghost Value = { ClientState };

    ghost view = { λ c. record {
      role = c.role;
      held = c.held;
      front = c.front;
      out = c.out;
      requests = c.requests;
      closing =
          c.closing;
    } };

    ghost invariant = { λ c. HasReadFront c.held c.reader × KnowsFront c.held c.front };
}

impl Client {
    /// One of this role, from whom nothing has come.
    pub fn new(alloc: Global, role: Role) -> Client
        ensures { result ≡ begun role }
    {
        Client {
            role,
            held: Queue::new(alloc),
            reader: FrontReader::new(alloc),
            front: Some(Front::Part),
            out: Queue::new(alloc),
            requests: 0,
            closing: false,
        }
    }

    /// These bytes came. `room` is for the places of header fields.
    ///
    /// Where there is no memory for them, nothing changes; where there is none to say what they begin with, that isn't
    /// known until more come.
    pub fn come(&mut self, bytes: &[u8], room: &mut [HeaderSpan]) -> Result<(), AllocError>
        requires { FIELD_ROOM ≤ length room.old }
        ensures came { OnOk result (CameTo bytes.now self.old self.new) }
        ensures none { OnErr result (self.new ≡ self.old) }
    {
        self.held.add(bytes)?;
        if !is_open(self.front) {
            return Ok(());
        }
        self.front = look(&mut self.reader, self.held.bytes(), room);
        Ok(())
    }

    /// Whose client it is.
    pub fn role(&self) -> Role
        ensures { result ≡ self.now.role }
    {
        self.role
    }

    /// Its bytes that weren't fed.
    pub fn held(&self) -> &[u8]
        ensures { result.now ≡ self.now.held }
    {
        self.held.bytes()
    }

    /// What these begin with, where that is known.
    pub fn front(&self) -> Option<Front>
        ensures front { result ≡ self.now.front }
        ensures known { KnowsFront self.now.held result }
    {
        self.front
    }

    /// The bytes that are to go out to it.
    pub fn out(&self) -> &[u8]
        ensures { result.now ≡ self.now.out }
    {
        self.out.bytes()
    }

    /// How many of its requests were fed.
    pub fn requests(&self) -> u32
        ensures { result ≡ self.now.requests }
    {
        self.requests
    }

    /// Whether it is closed behind what goes out, so that nothing of it is fed any more.
    pub fn is_closing(&self) -> bool
        ensures { result ≡ self.now.closing }
    {
        self.closing
    }

    /// It is closed behind what goes out.
    pub fn close(&mut self)
        ensures { self.new ≡ record self.old { closing = true } }
    {
        self.closing = true;
    }

    /// Its first request, of so many bytes, was fed: what stands behind it is looked at.
    pub fn pass(&mut self, alloc: Global, count: usize, room: &mut [HeaderSpan])
        requires room { FIELD_ROOM ≤ length room.old }
        requires there { count ≤ length self.old.held }
        ensures { HasFed count self.old self.new }
    {
        self.held.pass(count);
        self.reader = FrontReader::new(alloc);
        self.front = look(&mut self.reader, self.held.bytes(), room);
        self.requests = self.requests.saturating_add(1);
    }

    /// These bytes are to go out to it, behind the others. Without memory nothing changes.
    pub fn put(&mut self, bytes: &[u8]) -> Result<(), AllocError>
        ensures put { OnOk result (self.new ≡ record self.old { out = self.old.out ++ bytes.now }) }
        ensures none { OnErr result (self.new ≡ self.old) }
    {
        self.out.add(bytes)
    }

    /// The first `count` of the bytes that are to go out went out.
    pub fn went(&mut self, count: usize)
        requires { count ≤ length self.old.out }
        ensures { self.new ≡ record self.old { out = drop count self.old.out } }
    {
        self.out.pass(count);
    }

    /// Writes these over the head of its first request, which is whole.
    pub fn write_over(&mut self, alloc: Global, place: Place, head: &[u8])
        requires front { self.old.front ≡ Some (Front.Whole place) }
        requires over { SaysNoClose (take place.head.len self.old.held) place.head head.now }
        ensures { IsOpened place self.old self.new }
    {
        self.held.write_over(head);
        self.reader = FrontReader::new(alloc);
        self.front = Some(Front::Whole(open_place(place)));
    }
}

/// The same place, of a request that doesn't ask for the end of the connection.
fn open_place(place: Place) -> Place
    ensures { result ≡ opened place }
{
    Place {
        len: place.len,
        head: open_parts(place.head),
    }
}

/// Whether more bytes may change what they begin with.
fn is_open(front: Option<Front>) -> bool
    ensures { result ≡ is_open front }
{
    match front {
        None | Some(Front::Part) => true,
        Some(Front::Whole(_)) | Some(Front::Malformed) | Some(Front::TooLarge) => false,
    }
}

/// What these bytes begin with, where there is memory to say it.
fn look(reader: &mut FrontReader, held: &[u8], room: &mut [HeaderSpan]) -> Option<Front>
    requires room { FIELD_ROOM ≤ length room.old }
    requires known { HasReadFront held.now reader.old }
    ensures kept { (more : List ℕ) → HasReadFront (held.now ++ more) reader.new }
    ensures front { KnowsFront held.now result }
{
    match reader.read(held, room) {
        Ok(front) => Some(front),
        Err(AllocError) => None,
    }
}
