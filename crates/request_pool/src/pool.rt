//! Many clients, of which one at a time is in hand.
ghost use Rattle.std.specs.Prelude.{◌≡◌, ◌≤◌, ◌<◌, [], IfOk, IfSome, IsSome, IsTrue, OnErr, OnOk, false, length, option_map, true};
ghost use Rattle.std.specs.Prelude.{slice_index_or, slice_set};
ghost use Rattle.http_frames.specs.declared.TheConstants.{FIELD_ROOM};
ghost use Rattle.request_pool.specs.Fronts.{IsWholeAt};
ghost use Rattle.request_pool.specs.Pools.{Admits, Comes, Feeds, GivesNext, Goes, IsSameOrLonger, PutsBack, PutsToHand, TakesInHand};
ghost use Rattle.request_pool.specs.Pools.{is_ready, is_set, skipped};

use crate::client::Client;
use crate::fronts::{Front, Place};
use crate::gateway::write_over;
use crate::hand::Hand;
use http_frames::FIELD_ROOM;
use httparse::spans::{EMPTY_HEADER_SPAN, HeaderSpan};
use lcm_events::Role;
use std::alloc::{AllocError, Global};
use std::collections::VecDeque;

/// The requests of one client, the last of which closes it.
const CLIENT_REQUESTS: u32 = 65_536;

/// Many clients, each at a slot of its own while it lives, and the one in hand. The slots whose clients have something
/// to feed stand in a line, in the order in which that was so.
#[derive(Drop)]
pub struct Pool {
    alloc: Global,
    clients: Vec<Option<Client>>,
    free: Vec<usize>,
    line: VecDeque<usize>,
    hand: Option<Hand>,
    room: Vec<HeaderSpan>,
    over: Vec<u8>,
    ghost fields: { FIELD_ROOM ≤ length room.items },
}

/// The client in the front of the line.
#[derive(Clone, Copy, PartialEq, Eq)]
pub struct Turn {
    /// Whose it is.
    pub role: Role,
    /// Whether its request is answered the same for either role.
    pub neutral: bool,
    /// Whether it is a connection of its own.
    pub lone: bool,
}

impl Pool {
    /// One with no client. Its one refusal is want of memory.
    pub fn new(alloc: Global) -> Result<Pool, AllocError>
        ensures { IfOk result (λ p. (p.clients.items ≡ []) × (p.line.items ≡ []) × (p.hand ≡ None)) }
    {
        let mut room = Vec::with_capacity(alloc, FIELD_ROOM)?;
        room.resize(FIELD_ROOM, EMPTY_HEADER_SPAN)?;
        Ok(Pool {
            alloc,
            clients: Vec::new(alloc),
            free: Vec::new(alloc),
            line: VecDeque::new(alloc),
            hand: None,
            room,
            over: Vec::new(alloc),
        })
    }

    /// One more client of this role, from whom nothing has come. Gives its slot. Without memory there is none.
    pub fn admit(&mut self, role: Role) -> Result<usize, AllocError>
        ensures admitted { IfOk result (Admits role self.old.clients.items self.new.clients.items) }
        ensures none { OnErr result (self.new.clients.items ≡ self.old.clients.items) }
        ensures hand { self.new.hand ≡ self.old.hand }
    {
        let client = Client::new(self.alloc, role);
        match self.free.pop() {
            Some(slot) if is_free(&self.clients, slot) => {
                put_at(&mut self.clients, slot, client);
                Ok(slot)
            }
            _ => {
                let slot = self.clients.len();
                self.clients.push(Some(client))?;
                Ok(slot)
            }
        }
    }

    /// These bytes came from the client at this slot. Where it has something to feed since, it stands at the end of the
    /// line.
    ///
    /// Without memory nothing of them is held.
    pub fn come(&mut self, slot: usize, bytes: &[u8]) -> Result<(), AllocError>
        ensures comes { OnOk result (Comes slot bytes.now self.old.clients.items self.new.clients.items) }
        ensures hand { self.new.hand ≡ self.old.hand }
        ensures line { IsSameOrLonger slot self.old.line.items self.new.line.items }
    {
        let Some(mut client) = take_at(&mut self.clients, slot) else {
            return Ok(());
        };
        let was = is_ready(&client);
        let came = client.come(bytes, &mut self.room);
        let is = is_ready(&client);
        put_at(&mut self.clients, slot, client);
        if is & !was {
            self.line.push_back(slot)?;
        }
        came
    }

    /// The first `count` of the bytes that are to go out to the client at this slot went out. Where it has something to
    /// feed since, it stands at the end of the line.
    ///
    /// Without memory it isn't in the line.
    pub fn went(&mut self, slot: usize, count: usize) -> Result<(), AllocError>
        ensures hand { self.new.hand ≡ self.old.hand }
        ensures goes { Goes slot count self.old.clients.items self.new.clients.items }
        ensures line { IsSameOrLonger slot self.old.line.items self.new.line.items }
    {
        let Some(mut client) = take_at(&mut self.clients, slot) else {
            return Ok(());
        };
        let was = is_ready(&client);
        let most = client.out().len();
        client.went(count.min(most));
        let is = is_ready(&client);
        put_at(&mut self.clients, slot, client);
        if is & !was {
            self.line.push_back(slot)?;
        }
        Ok(())
    }

    /// The client at this slot is gone.
    pub fn remove(&mut self, slot: usize)
        ensures gone { self.new.clients.items ≡ slice_set self.old.clients.items slot None }
        ensures hand { self.new.hand ≡ self.old.hand }
        ensures line { self.new.line.items ≡ self.old.line.items }
    {
        if take_at(&mut self.clients, slot).is_some() {
            // Without memory the number isn't used again, and nothing else is lost.
            let _ = self.free.push(slot);
        }
    }

    /// The client at this slot, where one is.
    pub fn client(&self, slot: usize) -> Option<&Client>
        ensures { IfSome result (λ c. slice_index_or self.now.clients.items slot None ≡ Some c.now) }
    {
        match self.clients.get(slot) {
            Some(Some(client)) => Some(client),
            _ => None,
        }
    }

    /// The client in hand.
    pub fn hand(&self) -> Option<&Hand>
        ensures { IfSome result (λ h. self.now.hand ≡ Some h.now) }
    {
        self.hand.as_ref()
    }

    /// Who stands in the front of the line, where somebody does. Who has nothing to feed any more leaves it before.
    pub fn turn(&mut self) -> Option<Turn>
        ensures clients { self.new.clients.items ≡ self.old.clients.items }
        ensures hand { self.new.hand ≡ self.old.hand }
    {
        'stale: while let Some(slot) = self.line.front().copied() {
            if let Some(turn) = turn_of(&self.clients, slot) {
                return Some(turn);
            }
            let _ = self.line.pop_front();
        }
        None
    }

    /// Who stands in the front of the line goes to its end.
    ///
    /// Without memory it leaves the line.
    pub fn put_off(&mut self) -> Result<(), AllocError>
        ensures clients { self.new.clients.items ≡ self.old.clients.items }
        ensures hand { self.new.hand ≡ self.old.hand }
    {
        if let Some(slot) = self.line.pop_front() {
            self.line.push_back(slot)?;
        }
        Ok(())
    }

    /// Takes the client in the front of the line in hand, and feeds what it has: its whole request, in which what is
    /// said of the connection is written over where it asks for its end; or all its bytes, where they are none. Whether
    /// it could: where not, nobody is in hand, and the client, if one was there, stands where it stood.
    ///
    /// `near_full` says that each client is closed behind its answer.
    ///
    /// It does nothing where somebody is in hand.
    pub fn feed(&mut self, near_full: bool) -> bool
        ensures fed { IsTrue result → IfSome self.new.hand (Feeds self.old.line.items self.old.clients.items
            self.new.line.items self.new.clients.items) }
        ensures some { IsTrue result → IsSome self.new.hand }
        ensures none { result ≡ false → self.new.hand ≡ self.old.hand }
    {
        if self.hand.is_some() {
            return false;
        }
        let Some(slot) = self.line.pop_front() else {
            return false;
        };
        let Some(client) = take_at(&mut self.clients, slot) else {
            return false;
        };
        if !is_ready(&client) {
            put_at(&mut self.clients, slot, client);
            return false;
        }
        self.hand = Some(in_hand(
            self.alloc,
            slot,
            client,
            near_full,
            &mut self.over,
            &mut self.room,
        ));
        true
    }

    /// Puts the next bytes of what is fed to the front of `into`, and gives how many: none where all were read, or
    /// nobody is in hand.
    pub fn read(&mut self, into: &mut [u8]) -> usize
        ensures gives { GivesNext into.old into.new result self.old.hand self.new.hand }
        ensures clients { self.new.clients.items ≡ self.old.clients.items }
        ensures line { self.new.line.items ≡ self.old.line.items }
    {
        match &mut self.hand {
            Some(hand) => hand.give(into),
            None => 0,
        }
    }

    /// Nothing of what is fed is left to be read, and the client in hand is closed behind its answer: an answer is told
    /// to it that was made before anything was read.
    pub fn skip(&mut self)
        ensures skips { self.new.hand ≡ option_map skipped self.old.hand }
        ensures clients { self.new.clients.items ≡ self.old.clients.items }
        ensures line { self.new.line.items ≡ self.old.line.items }
    {
        if let Some(hand) = &mut self.hand {
            hand.skip();
        }
    }

    /// How many slots stand in the line.
    pub fn waiting(&self) -> usize
        ensures { result ≡ length self.now.line.items }
    {
        self.line.len()
    }

    /// These bytes of an answer go to the client in hand, and to no other. Without memory a front of them may.
    pub fn write(&mut self, bytes: &[u8]) -> Result<(), AllocError>
        ensures home { OnOk result (PutsToHand bytes.now self.old.hand self.new.hand) }
        ensures clients { self.new.clients.items ≡ self.old.clients.items }
        ensures line { self.new.line.items ≡ self.old.line.items }
    {
        match &mut self.hand {
            Some(hand) => hand.put(bytes),
            None => Ok(()),
        }
    }

    /// Puts the client in hand back to its slot, what was fed passed, and gives the slot. `closes` says whether it is
    /// closed behind what goes out. Where it has something to feed, it stands at the end of the line.
    ///
    /// Without memory it isn't in the line.
    pub fn settle(&mut self, closes: bool) -> Option<usize>
        ensures none { self.new.hand ≡ None }
        ensures back { PutsBack self.old.hand self.old.clients.items result self.new.clients.items }
    {
        let Some(mut hand) = self.hand.take() else {
            return None;
        };
        if closes {
            hand.close();
        }
        let slot = hand.slot();
        let client = hand.end(self.alloc, &mut self.room);
        let is = is_ready(&client);
        put_at(&mut self.clients, slot, client);
        if is {
            let _ = self.line.push_back(slot);
        }
        Some(slot)
    }
}

/// Takes the client out of this slot.
fn take_at(clients: &mut Vec<Option<Client>>, slot: usize) -> Option<Client>
    ensures taken { result ≡ slice_index_or clients.old.items slot None }
    ensures left { clients.new.items ≡ slice_set clients.old.items slot None }
{
    if slot < clients.len() {
        clients[slot].take()
    } else {
        None
    }
}

/// Puts the client to this slot, where there is one.
fn put_at(clients: &mut Vec<Option<Client>>, slot: usize, client: Client)
    ensures { clients.new.items ≡ slice_set clients.old.items slot (Some client) }
{
    if slot < clients.len() {
        clients[slot] = Some(client);
    }
}

/// Whether there is such a slot, and nobody in it.
fn is_free(clients: &[Option<Client>], slot: usize) -> bool
    ensures { IsTrue result → (slot < length clients.now) × (slice_index_or clients.now slot None ≡ None) }
{
    match clients.get(slot) {
        Some(place) => place.is_none(),
        None => false,
    }
}

/// Whether a client has something to feed: its bytes begin with a whole request or with none, its last answer went out,
/// and it isn't closed.
fn is_ready(client: &Client) -> bool
    ensures { result ≡ is_ready client.now }
{
    if client.is_closing() {
        return false;
    }
    if !client.out().is_empty() {
        return false;
    }
    is_set(client.front())
}

/// Whether it is known what bytes begin with, and more of them change nothing of it.
pub fn is_set(front: Option<Front>) -> bool
    ensures { result ≡ is_set front }
{
    match front {
        None | Some(Front::Part) => false,
        Some(Front::Whole(_)) | Some(Front::Malformed) | Some(Front::TooLarge) => true,
    }
}

/// What the client at this slot has to feed, where it has something.
fn turn_of(clients: &[Option<Client>], slot: usize) -> Option<Turn> {
    let Some(Some(client)) = clients.get(slot) else {
        return None;
    };
    if !is_ready(client) {
        return None;
    }
    let role = client.role();
    match client.front() {
        Some(Front::Whole(place)) => Some(Turn {
            role,
            neutral: is_neutral(target_in(client.held(), place)),
            lone: false,
        }),
        _ => Some(Turn {
            role,
            neutral: false,
            lone: true,
        }),
    }
}

/// The target of the request at the front.
fn target_in(held: &[u8], place: Place) -> &[u8] {
    match held.get(place.head.target.start..place.head.target.end) {
        Some(target) => target,
        None => &[],
    }
}

/// The path of subscriptions, which each role has of its own.
const SUBSCRIPTIONS: &[u8] = b"/vnflcm/v1/subscriptions";

/// What stands before the identifier of an instance. A task of one, whose path goes on behind it, is recorded with the
/// role that asked for it.
const INSTANCES: &[u8] = b"/vnflcm/v1/vnf_instances/";

/// Whether a request of this target is answered the same, and records the same, for either role.
fn is_neutral(target: &[u8]) -> bool {
    if !target.starts_with(b"/") {
        return false;
    }
    if target.starts_with(SUBSCRIPTIONS) {
        return false;
    }
    match target.strip_prefix(INSTANCES) {
        Some(behind) => !behind.contains(&b'/'),
        None => true,
    }
}

/// This client, whose front is fed.
fn in_hand(
    alloc: Global,
    slot: usize,
    client: Client,
    near_full: bool,
    over: &mut Vec<u8>,
    room: &mut [HeaderSpan],
) -> Hand
    requires { FIELD_ROOM ≤ length room.old }
    ensures { TakesInHand slot client result }
{
    match client.front() {
        Some(Front::Whole(place)) => whole_in_hand(
            alloc, slot, client, place, near_full, over, room,
        ),
        _ => {
            let len = client.held().len();
            Hand::begun(slot, client, len, true, true)
        }
    }
}

/// This client, whose whole request is fed. One that asks for the end of its connection is a connection of its own,
/// where that can't be written over.
fn whole_in_hand(
    alloc: Global,
    slot: usize,
    client: Client,
    place: Place,
    near_full: bool,
    over: &mut Vec<u8>,
    room: &mut [HeaderSpan],
) -> Hand
    requires room { FIELD_ROOM ≤ length room.old }
    requires front { client.front ≡ Some (Front.Whole place) }
    requires whole { IsWholeAt client.held place }
    ensures { TakesInHand slot client result }
{
    let last = client.requests() >= CLIENT_REQUESTS - 1;
    if place.head.closes {
        return opened_in_hand(alloc, slot, client, place, over, room);
    }
    Hand::begun(slot, client, place.len, near_full | last, false)
}

/// This client, whose whole request is fed, which asks for the end of its connection. Where that can't be written over
/// the request is fed alone.
fn opened_in_hand(
    alloc: Global,
    slot: usize,
    mut client: Client,
    place: Place,
    over: &mut Vec<u8>,
    room: &mut [HeaderSpan],
) -> Hand
    requires room { FIELD_ROOM ≤ length room.old }
    requires front { client.front ≡ Some (Front.Whole place) }
    requires whole { IsWholeAt client.held place }
    requires asks { place.head.closes ≡ true }
    ensures { TakesInHand slot client result }
{
    let head = &client.held()[..place.head.len];
    if !write_over(head, place.head, over, room) {
        return Hand::begun(slot, client, place.len, true, true);
    }
    client.write_over(alloc, place, over);
    Hand::begun(slot, client, place.len, true, false)
}
