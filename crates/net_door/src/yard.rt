//! The clients at two addresses, whose requests are gathered: no call waits for one of them.
ghost use Rattle.std.specs.Prelude.{◌≡◌, ◌≤◌, IfOk, IfSome, length, vec_len};

use edge_limits::{
    APART, GATHERED, HELD, KEPT, LATE, LATE_REQUESTS, LINGER, LONG_REQUESTS, LONGEST, PIECE, SPENT,
    STUCK, WITHIN,
};
use lcm_events::Role;
use net_calls::{ClientNet, Line, NoConnection, Parked, Put, Stopwatch, Took};
use request_pool::{Answering, Client, Pool, Turn, answer_head, is_set};
use std::alloc::{AllocError, Global};

/// Clients that are let in at once at one address.
const AT_ONCE: u32 = 64;

/// What is known of a client beside its bytes.
#[derive(Clone, Copy)]
struct Seat {
    // When its last byte in or out was, or its request began.
    since: u64,
    // It sends no more.
    ended: bool,
    // Its connection is good for nothing.
    lost: bool,
    // Its last answer went out, and what it still sends is dropped.
    lingers: bool,
}

/// What came of a wait for a request.
#[derive(Clone, Copy, PartialEq, Eq)]
pub enum Begun {
    /// One of this role is fed.
    Came(Role),
    /// A round is due.
    Nobody,
    /// Nobody can come any more.
    Shut,
}

/// What may be done with who stands in the front of the line.
#[derive(Clone, Copy)]
enum Fit {
    /// It can be fed.
    Feed(Turn),
    /// The gathered connection has to end for it.
    End,
    /// Nobody stands there, or nobody who may be fed now.
    Nothing,
}

/// The clients at two addresses.
#[derive(Drop)]
pub struct Yard<N: ClientNet + Drop, T: Stopwatch + Drop> {
    alloc: Global,
    net: N,
    watch: T,
    first: Option<N::Listener>,
    second: Option<N::Listener>,
    pool: Pool,
    lines: Vec<Option<Line<N::Client>>>,
    seats: Vec<Seat>,
    piece: Vec<u8>,
    most: usize,
    count: usize,
    role: Role,
    fed: u32,
    late: u32,
    ended: bool,
    failing: bool,
    accepted: bool,
    lost: bool,
    due: u64,
    paused: bool,
    apart: u64,
    looked: u64,
    unlooked: u32,
    spent: u64,
    ghost some: { 1 ≤ vec_len piece },
}

impl<N: ClientNet + Drop, T: Stopwatch + Drop> Yard<N, T> {
    /// One at no address yet. Its one refusal is want of memory.
    pub fn new(alloc: Global, net: N, watch: T) -> Result<Yard<N, T>, AllocError>
        ensures { IfOk result (λ y. (y.net ≡ net) × (y.watch ≡ watch)) }
    {
        let mut piece = Vec::with_capacity(alloc, PIECE)?;
        piece.resize(PIECE, 0)?;
        let pool = Pool::new(alloc)?;
        let most = net.most();
        Ok(Yard {
            alloc,
            net,
            watch,
            first: None,
            second: None,
            pool,
            lines: Vec::new(alloc),
            seats: Vec::new(alloc),
            piece,
            most,
            count: 0,
            role: Role::Orchestrator,
            fed: 0,
            late: 0,
            ended: false,
            failing: false,
            accepted: false,
            lost: false,
            due: 0,
            paused: false,
            apart: 0,
            looked: 0,
            unlooked: 0,
            spent: 0,
        })
    }

    /// The network.
    pub fn net(&self) -> &N
        ensures { result.now ≡ self.now.net }
    {
        &self.net
    }

    /// Listens at the orchestrator's address and at the element manager's. Whether both could be had.
    pub fn listen(&mut self, orchestrator: &str, element: &str) -> bool {
        self.first = self.net.listen_for(orchestrator).ok();
        self.second = self.net.listen_for(element).ok();
        self.first.is_some() && self.second.is_some()
    }

    fn now(&mut self) -> u64 {
        self.watch.millis().unwrap_or(u64::MAX)
    }

    /// The next round is due so many milliseconds from now, unless it was before. `paused` says whether a pause runs.
    pub fn rest(&mut self, wait: u32, paused: bool) {
        let now = self.now();
        self.due = now.saturating_add(u64::from(wait));
        self.paused = paused;
    }

    /// Something was recorded with the last answer: a round is due at once, or behind a second where a pause runs and
    /// nothing is under way for it.
    pub fn hurry(&mut self) {
        let now = self.now();
        let wait = if self.paused && !self.accepted {
            APART
        } else {
            0
        };
        self.due = self.due.min(now.saturating_add(wait));
    }

    /// Waits until a client has a request, and feeds it as the first of a gathered connection; or until a round is due.
    pub fn begin(&mut self) -> Begun {
        self.settle(false);
        self.ended = false;
        self.fed = 0;
        self.late = 0;
        if self.first.is_none() || self.second.is_none() {
            return Begun::Shut;
        }
        if !self.look(0) {
            return Begun::Shut;
        }
        for _ in 0..u64::MAX {
            let now = self.now();
            if let Some(role) = self.feed_first(now) {
                return Begun::Came(role);
            }
            if now >= self.due {
                return Begun::Nobody;
            }
            if !self.look((self.due - now).min(LONGEST) as u32) {
                return Begun::Shut;
            }
        }
        Begun::Nobody
    }

    /// Feeds who stands in the front of the line, as the first of a gathered connection.
    fn feed_first(&mut self, now: u64) -> Option<Role> {
        match self.fit(None, now) {
            Fit::Feed(turn) if self.feed() => {
                self.role = turn.role;
                Some(turn.role)
            }
            _ => None,
        }
    }

    fn feed(&mut self) -> bool {
        self.settle(false);
        self.fed = self.fed.saturating_add(1);
        self.accepted = false;
        self.lost = false;
        let near_full = self.count.saturating_add(self.most / 16) >= self.most;
        self.pool.feed(near_full)
    }

    /// Reads the next bytes of the gathered connection, waiting for the next request where the last one is answered;
    /// none where it ends.
    pub fn read(&mut self, into: &mut [u8]) -> Option<usize>
        requires { 1 ≤ length into.old }
        ensures { IfSome result (λ n. (1 ≤ n) × (n ≤ length into.old)) }
    {
        let most = into.len();
        let count = self.pool.read(into);
        if count > 0 {
            return Some(count.min(most));
        }
        if !self.feed_next() {
            self.ended = true;
            return None;
        }
        let count = self.pool.read(into);
        if count == 0 {
            return None;
        }
        Some(count.min(most))
    }

    /// Feeds the next request of the gathered connection, which is waited for until a round is due. Whether there is
    /// one.
    fn feed_next(&mut self) -> bool {
        if self.fed >= GATHERED {
            return false;
        }
        match self.pool.hand() {
            Some(hand) => {
                if hand.is_lone() {
                    return false;
                }
                if let Answering::Awaited = hand.answer() {
                    return false;
                }
            }
            None => {}
        }
        self.settle(false);
        for _ in 0..u64::MAX {
            let now = self.now();
            if self.unlooked >= LATE_REQUESTS || now.saturating_sub(self.looked) >= LATE {
                if !self.look(0) {
                    return false;
                }
            }
            let over = now >= self.due;
            if over {
                self.late = self.late.saturating_add(1);
                if self.late > LATE_REQUESTS || now.saturating_sub(self.due) >= LATE {
                    return false;
                }
            }
            match self.fit(Some(self.role), now) {
                Fit::Feed(_) => {
                    self.unlooked = self.unlooked.saturating_add(1);
                    return self.feed();
                }
                Fit::End => return false,
                Fit::Nothing => {}
            }
            if over {
                return false;
            }
            if !self.look(self.due.saturating_sub(now).min(LONGEST) as u32) {
                return false;
            }
        }
        false
    }

    /// Whether what would end a gathered connection may be fed now.
    fn may_end(&self, now: u64) -> bool {
        !self.paused || now >= self.apart
    }

    /// What may be done now with who stands in the front of the line, in a gathered connection of this role or in none.
    /// Who may not be fed now goes to the end of the line.
    fn fit(&mut self, role: Option<Role>, now: u64) -> Fit {
        let count = self.pool.waiting();
        for _ in 0..count {
            let Some(turn) = self.pool.turn() else {
                return Fit::Nothing;
            };
            if fits(turn, role) {
                return Fit::Feed(turn);
            }
            if self.may_end(now) {
                self.apart = now.saturating_add(APART);
                return match role {
                    Some(_) => Fit::End,
                    None => Fit::Feed(turn),
                };
            }
            if self.pool.put_off().is_err() {
                return Fit::Nothing;
            }
        }
        Fit::Nothing
    }

    /// These bytes are of the answer to what was fed last. An answer that was made before anything was read is that of
    /// whoever is next, or of nobody.
    pub fn write(&mut self, bytes: &[u8]) {
        if self.lost {
            return;
        }
        let awaited = match self.pool.hand() {
            Some(hand) => hand.answer(),
            None => Answering::Whole,
        };
        if let Answering::Whole = awaited {
            self.settle(false);
            if self.pool.turn().is_some() && self.feed() {
                self.pool.skip();
            }
        }
        if let Answering::Awaited | Answering::Whole = awaited {
            self.note(bytes);
        }
        if self.pool.write(bytes).is_err() {
            self.lose_hand();
        }
    }

    /// Notes of the answer that begins so whether what was asked for is under way, and whether it says that the journal
    /// failed.
    fn note(&mut self, bytes: &[u8]) {
        if let Some(head) = answer_head(bytes) {
            self.accepted = head.accepted;
        }
        if bytes.starts_with(b"HTTP/1.1 500 ") {
            self.failing = true;
        }
    }

    /// The client in hand gets nothing more, and what is still written of its answer goes to nobody.
    fn lose_hand(&mut self) {
        self.lost = true;
        if let Some(slot) = self.pool.settle(true) {
            if let Some(seat) = self.seats.get_mut(slot) {
                seat.lost = true;
            }
        }
    }

    /// The gathered connection ends. Where that isn't for the door's sake, the client in hand is closed behind its
    /// answer. Where the answer says that the journal failed, it is waited for a while until it is out.
    pub fn end(&mut self) {
        let closes = !self.ended;
        self.settle(closes);
        if self.failing {
            self.drain();
        }
    }

    /// Waits for a while until all answers are out.
    fn drain(&mut self) {
        let began = self.now();
        for _ in 0..LINGER {
            let now = self.now();
            if now.saturating_sub(began) >= LINGER {
                return;
            }
            if !self.has_out() || !self.look(10) {
                return;
            }
        }
    }

    /// Whether bytes are to go out to somebody.
    fn has_out(&self) -> bool {
        for slot in 0..self.lines.len() {
            if let Some(client) = self.pool.client(slot) {
                if !client.out().is_empty() {
                    return true;
                }
            }
        }
        false
    }

    /// Puts the client in hand back, and sends what is to go out to it.
    fn settle(&mut self, closes: bool) {
        if let Some(slot) = self.pool.settle(closes) {
            let now = self.now();
            if let Some(seat) = self.seats.get_mut(slot) {
                seat.since = now;
            }
            self.send(slot, now);
        }
    }

    /// Waits so long for any client, and moves bytes both ways. Whether it could wait.
    fn look(&mut self, limit: u32) -> bool {
        let now = self.now();
        self.want();
        let open = now >= self.spent;
        let first = listener_if(open, &self.first);
        let second = listener_if(open, &self.second);
        if !self
            .net
            .wait_for(self.alloc, first, second, &mut self.lines, limit)
        {
            return false;
        }
        let now = self.now();
        self.looked = now;
        self.unlooked = 0;
        for slot in 0..self.lines.len() {
            self.serve(slot, now);
        }
        if open {
            self.let_in(Role::Orchestrator, now);
            self.let_in(Role::Element, now);
        }
        true
    }

    /// Says on each line what is waited for.
    fn want(&mut self) {
        let mut long = 0usize;
        for slot in 0..self.lines.len() {
            let seat = seat_at(&self.seats, slot);
            let client = self.pool.client(slot);
            if let Some(client) = client {
                if client.held().len() >= HELD {
                    long = long.saturating_add(1);
                }
            }
            if let Some(Some(line)) = self.lines.get_mut(slot) {
                line.heard = false;
                line.reads = wants_bytes(seat, client, long);
                line.writes = wants_room(client);
            }
        }
    }

    /// Moves the bytes of the client at this slot both ways, where its line was heard, and lets it go where it is over.
    fn serve(&mut self, slot: usize, now: u64) {
        let Some(Some(line)) = self.lines.get(slot) else {
            return;
        };
        if line.heard {
            let reads = line.reads;
            self.send(slot, now);
            if reads {
                self.take(slot, now);
            }
        }
        self.part(slot, now);
    }

    /// Sends what is to go out to the client at this slot, as far as there is room. Behind the last of it a client that
    /// is to be closed is shut.
    fn send(&mut self, slot: usize, now: u64) {
        for _ in 0..u64::MAX {
            let Some(client) = self.pool.client(slot) else {
                return;
            };
            let Some(Some(line)) = self.lines.get_mut(slot) else {
                return;
            };
            let Some(seat) = self.seats.get_mut(slot) else {
                return;
            };
            let out = client.out();
            if out.is_empty() {
                if client.is_closing() && !seat.lingers {
                    line.connection.finish();
                    seat.lingers = true;
                    seat.since = now;
                }
                return;
            }
            match line.connection.put(out) {
                Put::Some(count) => {
                    seat.since = now;
                    if self.pool.went(slot, count).is_err() {
                        seat.lost = true;
                        return;
                    }
                }
                Put::Nothing => return,
                Put::Lost => {
                    seat.lost = true;
                    return;
                }
            }
        }
    }

    /// Takes what has come from the client at this slot.
    fn take(&mut self, slot: usize, now: u64) {
        let Some(Some(line)) = self.lines.get_mut(slot) else {
            return;
        };
        let Some(seat) = self.seats.get_mut(slot) else {
            return;
        };
        match line.connection.take(&mut self.piece) {
            Took::Some(count) => {
                if seat.lingers {
                    return;
                }
                if is_idle(self.pool.client(slot)) {
                    seat.since = now;
                }
                if self.pool.come(slot, &self.piece[..count]).is_err() {
                    seat.lost = true;
                }
            }
            Took::Nothing => {}
            Took::End => seat.ended = true,
            Took::Lost => seat.lost = true,
        }
    }

    /// Lets the client at this slot go, where it is over.
    fn part(&mut self, slot: usize, now: u64) {
        let seat = seat_at(&self.seats, slot);
        if is_over(seat, self.pool.client(slot), now) {
            self.remove(slot);
        }
    }

    fn remove(&mut self, slot: usize) {
        self.pool.remove(slot);
        if let Some(place) = self.lines.get_mut(slot) {
            *place = None;
            self.count = self.count.saturating_sub(1);
        }
    }

    /// Lets in who has come at the address of this role.
    fn let_in(&mut self, role: Role, now: u64) {
        for _ in 0..AT_ONCE {
            match self.accept(role) {
                Ok(connection) => self.seat(connection, role, now),
                Err(NoConnection::Nobody) => return,
                Err(NoConnection::Spent) => {
                    self.spent = now.saturating_add(SPENT);
                    self.make_room();
                    return;
                }
                Err(NoConnection::Failed) => {
                    self.spent = now.saturating_add(SPENT);
                    return;
                }
            }
        }
    }

    /// The next client that has come at the address of this role.
    fn accept(&mut self, role: Role) -> Result<N::Client, NoConnection> {
        match role {
            Role::Orchestrator => accept_at(&mut self.net, &mut self.first),
            Role::Element => accept_at(&mut self.net, &mut self.second),
        }
    }

    /// One more client. Without memory it is closed.
    fn seat(&mut self, connection: N::Client, role: Role, now: u64) {
        if self.count >= self.most {
            self.make_room();
        }
        if self.count >= self.most {
            return;
        }
        let Ok(slot) = self.pool.admit(role) else {
            return;
        };
        if self.widen(slot).is_err() {
            self.pool.remove(slot);
            return;
        }
        if let Some(place) = self.lines.get_mut(slot) {
            *place = Some(Line {
                connection,
                reads: false,
                writes: false,
                heard: false,
            });
            self.count = self.count.saturating_add(1);
        }
        if let Some(seat) = self.seats.get_mut(slot) {
            *seat = Seat {
                since: now,
                ended: false,
                lost: false,
                lingers: false,
            };
        }
    }

    /// Makes lines and seats as many as there are slots up to this one.
    fn widen(&mut self, slot: usize) -> Result<(), AllocError> {
        for _ in self.lines.len()..slot.saturating_add(1) {
            self.lines.push(None)?;
        }
        for _ in self.seats.len()..slot.saturating_add(1) {
            self.seats.push(Seat {
                since: 0,
                ended: false,
                lost: false,
                lingers: false,
            })?;
        }
        Ok(())
    }

    /// Lets go the client that has been idle for longest, where one is idle. None goes of which a byte isn't answered.
    fn make_room(&mut self) {
        let mut oldest = None;
        let mut since = u64::MAX;
        for slot in 0..self.lines.len() {
            let seat = seat_at(&self.seats, slot);
            if is_idle(self.pool.client(slot)) && seat.since < since {
                since = seat.since;
                oldest = Some(slot);
            }
        }
        if let Some(slot) = oldest {
            self.remove(slot);
        }
    }
}

/// The listener, where somebody may be let in.
fn listener_if<L: Drop>(open: bool, listener: &Option<L>) -> Option<&L> {
    if open {
        return listener.as_ref();
    }
    None
}

/// The next client that has come at this listener.
fn accept_at<N: ClientNet>(
    net: &mut N,
    listener: &mut Option<N::Listener>,
) -> Result<N::Client, NoConnection> {
    match listener {
        Some(listener) => net.let_in(listener),
        None => Err(NoConnection::Failed),
    }
}

/// What is known of the client at this slot.
fn seat_at(seats: &[Seat], slot: usize) -> Seat {
    match seats.get(slot) {
        Some(seat) => *seat,
        None => Seat {
            since: 0,
            ended: false,
            lost: true,
            lingers: false,
        },
    }
}

/// Whether who stands in the front of the line can be fed in a gathered connection of this role, or as its first.
fn fits(turn: Turn, role: Option<Role>) -> bool {
    if turn.lone {
        return false;
    }
    match role {
        None => true,
        Some(role) => turn.neutral || turn.role == role,
    }
}

/// Whether nothing of a client is held or is to go out.
fn is_idle(client: Option<&Client>) -> bool {
    match client {
        Some(client) => client.held().is_empty() && client.out().is_empty() && !client.is_closing(),
        None => false,
    }
}

/// Whether bytes of a client are waited for, where it is the last of so many of which many are held.
fn wants_bytes(seat: Seat, client: Option<&Client>, long: usize) -> bool {
    if seat.ended || seat.lost {
        return false;
    }
    let Some(client) = client else {
        return false;
    };
    if seat.lingers || client.held().len() < HELD {
        return true;
    }
    !is_set(client.front()) && long <= LONG_REQUESTS
}

/// Whether room for bytes to a client is waited for.
fn wants_room(client: Option<&Client>) -> bool {
    match client {
        Some(client) => !client.out().is_empty(),
        None => false,
    }
}

/// Whether a client is let go now.
fn is_over(seat: Seat, client: Option<&Client>, now: u64) -> bool {
    let Some(client) = client else {
        return false;
    };
    if seat.lost {
        return true;
    }
    let age = now.saturating_sub(seat.since);
    if !client.out().is_empty() {
        return age > STUCK;
    }
    if seat.lingers {
        return seat.ended || age > LINGER;
    }
    if is_set(client.front()) {
        return false;
    }
    if seat.ended {
        return true;
    }
    if client.held().is_empty() {
        age > KEPT
    } else {
        age > WITHIN
    }
}
