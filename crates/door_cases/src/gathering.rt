//! The door at two addresses: whose requests are gathered into one connection, what ends it, and how long is waited.
ghost use Rattle.std.specs.Prelude.{◌≡◌, true};

use crate::connections::connection;
use crate::networks::list;
use anyhow::{Result, bail};
use edge_limits::{Pace, Pulse};
use lcm_events::Role;
use net_calls::{MemConnection, MemListener, MemNet, NoConnection, Step, StepWatch};
use net_door::GatheringDoor;
use site_traits::{Door, NextAnswer, ReadAnswer, WriteAnswer};
use std::alloc::{AllocError, AllocGlobal, Global};
use std::cell::Cell;
use std::collections::VecDeque;
use std::io::Print;
use std::str;

/// What comes at a listener in memory.
type Coming = VecDeque<Result<MemConnection, NoConnection>>;

/// A request of this path.
const SHORT: &str = "GET /a HTTP/1.1\r\n\r\n";

/// An answer.
const FINE: &[u8] = b"HTTP/1.1 204 No Content\r\n\r\n";

/// What the objects of a door share.
#[derive(Drop)]
struct Shared {
    pulse: Cell<Pulse>,
    pace: Cell<Pace>,
}

/// Nothing was done since the last round.
fn idle() -> Shared {
    Shared {
        pulse: Cell::new(Pulse::at_start().renewed()),
        pace: Cell::new(Pace::at_start().renewed()),
    }
}

/// A door at which these come, over a stopwatch that begins there.
fn door<'a>(
    alloc: Global,
    shared: &'a Shared,
    first: Coming,
    second: Coming,
    breaks: bool,
    began: u64,
) -> Result<GatheringDoor<'a, MemNet, StepWatch>> {
    let listeners = list(
        alloc,
        [
            at(alloc, "127.0.0.1:1", first)?,
            at(alloc, "127.0.0.1:2", second)?,
        ],
    )?;
    let net = MemNet::of(listeners, list(alloc, [])?, breaks);
    let watch = StepWatch::of(began, 1);
    let mut door = GatheringDoor::made(alloc, net, watch, &shared.pulse, &shared.pace)?;
    if !door.listen("127.0.0.1:1", "127.0.0.1:2") {
        bail!("it can't listen");
    }
    Ok(door)
}

/// A listener at this address, at which these come.
fn at(alloc: Global, address: &str, coming: Coming) -> Result<Option<MemListener>, AllocError> {
    let address = address.as_bytes().to_vec(alloc)?;
    Ok(Some(MemListener::of(address, coming)))
}

/// A client that sends this text at once.
fn speaking(alloc: Global, text: &str) -> Result<Result<MemConnection, NoConnection>, AllocError> {
    Ok(Ok(connection(alloc, text.as_bytes(), &[], 99_999)?))
}

/// A client that sends this text a byte at a time.
fn slow(alloc: Global, text: &str) -> Result<Result<MemConnection, NoConnection>, AllocError> {
    let steps = [Step::Piece(1), Step::Silence].repeat(alloc, text.len())?;
    Ok(Ok(MemConnection::of(
        text.as_bytes().to_vec(alloc)?,
        steps,
        99_999,
        Vec::new(alloc),
    )))
}

/// Prints one gathered connection: whose it is, and what is read between two answers. So many requests are answered.
fn print_next(
    rt: &(impl Print + AllocGlobal),
    door: &mut GatheringDoor<'_, MemNet, StepWatch>,
) -> Result<()> {
    match door.next() {
        NextAnswer::Came(role) => {
            let who = match role {
                Role::Orchestrator => "orchestrator",
                Role::Element => "element manager",
            };
            print!(rt; " {who}")?;
            print_reads(rt, door)?;
            door.hang_up();
        }
        NextAnswer::Nobody => print!(rt; " nobody")?,
        NextAnswer::Ended => print!(rt; " ended")?,
        NextAnswer::Failed => print!(rt; " failed")?,
    }
    Ok(())
}

/// Prints what is read of a gathered connection, each piece answered, up to its end.
fn print_reads<D: Door>(rt: &impl Print, door: &mut D) -> Result<()>
    requires { (D.counts door.old).up ≡ true }
    ensures { (D.counts door.new).up ≡ true }
{
    'reads: for _ in 0..20 {
        if !print_read(rt, door)? {
            return Ok(());
        }
    }
    Ok(())
}

/// Prints what is read of a gathered connection, and answers it. Whether it goes on.
fn print_read<D: Door>(rt: &impl Print, door: &mut D) -> Result<bool>
    requires { (D.counts door.old).up ≡ true }
    ensures { (D.counts door.new).up ≡ true }
{
    let mut room = [0u8; 64];
    match door.read(&mut room) {
        ReadAnswer::Got(count) => print!(rt; " {:?}", str::from_utf8(&room[..count])?)?,
        ReadAnswer::End => {
            print!(rt; " end")?;
            return Ok(false);
        }
        ReadAnswer::Failed => {
            print!(rt; " failed")?;
            return Ok(false);
        }
    }
    match door.write(FINE) {
        WriteAnswer::Took(count) if count == FINE.len() => {}
        _ => print!(rt; " not answered")?,
    }
    Ok(true)
}

/// Prints so many gathered connections, and how long was waited the last time.
fn print_nexts(
    rt: &(impl Print + AllocGlobal),
    title: &str,
    door: &mut GatheringDoor<'_, MemNet, StepWatch>,
    count: u8,
) -> Result<()> {
    print!(rt; "{title}:")?;
    for _ in 0..count {
        print_next(rt, door)?;
    }
    println!(rt; "; the last wait {}", door.net().last_wait())?;
    Ok(())
}

/// Prints what gathering doors hand in.
pub fn print_gatherings(rt: &(impl Print + AllocGlobal)) -> Result<()> {
    print_unheard(rt)?;
    print_many(rt)?;
    print_slow(rt)?;
    print_roles(rt)?;
    print_closing(rt)?;
    print_none(rt)?;
    print_broken(rt)
}

/// Prints what a door answers that listens nowhere, or at one address alone.
fn print_unheard(rt: &(impl Print + AllocGlobal)) -> Result<()> {
    let alloc = rt.alloc();
    let shared = idle();
    let coming = list(alloc, [speaking(alloc, SHORT)?])?;
    let offered = [at(alloc, "127.0.0.1:1", coming)?, None];
    let net = MemNet::of(list(alloc, offered)?, list(alloc, [])?, false);
    let watch = StepWatch::of(0, 1);
    let mut door = GatheringDoor::made(alloc, net, watch, &shared.pulse, &shared.pace)?;
    print_nexts(rt, "at no address", &mut door, 2)?;
    println!(rt; "listen {}", door.listen("127.0.0.1:1", "127.0.0.1:2"))?;
    print_nexts(rt, "at one address", &mut door, 2)
}

/// Prints the requests of three clients, one of which has two and a part of a third, at a manager that is up for ten
/// seconds.
fn print_many(rt: &(impl Print + AllocGlobal)) -> Result<()> {
    let alloc = rt.alloc();
    let shared = idle();
    let three = "GET /1 HTTP/1.1\r\n\r\nGET /2 HTTP/1.1\r\n\r\nGET /3 HT";
    let first = list(
        alloc,
        [
            speaking(alloc, three)?,
            speaking(alloc, "GET /4 HTTP/1.1\r\n\r\n")?,
        ],
    )?;
    let second = list(alloc, [speaking(alloc, "GET /5 HTTP/1.1\r\n\r\n")?])?;
    let mut door = door(alloc, &shared, first, second, false, 10_000)?;
    print_nexts(rt, "three clients", &mut door, 2)
}

/// Prints the request of a client that sends a byte at a time beside one that sends all at once.
fn print_slow(rt: &(impl Print + AllocGlobal)) -> Result<()> {
    let alloc = rt.alloc();
    let shared = idle();
    let first = list(alloc, [slow(alloc, "GET /slow HTTP/1.1\r\n\r\n")?])?;
    let second = list(alloc, [speaking(alloc, SHORT)?])?;
    let mut door = door(alloc, &shared, first, second, false, 0)?;
    print_nexts(rt, "beside a slow one", &mut door, 2)
}

/// Prints requests whose answers depend on the role, one at each address.
fn print_roles(rt: &(impl Print + AllocGlobal)) -> Result<()> {
    let alloc = rt.alloc();
    let shared = idle();
    let asks = "GET /vnflcm/v1/subscriptions HTTP/1.1\r\n\r\n";
    let first = list(alloc, [speaking(alloc, asks)?])?;
    let second = list(alloc, [speaking(alloc, asks)?])?;
    let mut door = door(alloc, &shared, first, second, false, 0)?;
    print_nexts(rt, "of either role", &mut door, 3)
}

/// Prints requests that ask for the end of their connection.
fn print_closing(rt: &(impl Print + AllocGlobal)) -> Result<()> {
    let alloc = rt.alloc();
    let shared = idle();
    let old = "GET /old HTTP/1.0\r\n\r\n";
    let asks = "GET /a HTTP/1.1\r\nConnection: close\r\n\r\n";
    let first = list(alloc, [speaking(alloc, old)?, speaking(alloc, asks)?])?;
    let second = list(alloc, [speaking(alloc, SHORT)?])?;
    let mut door = door(alloc, &shared, first, second, false, 0)?;
    print_nexts(rt, "closing ones", &mut door, 2)
}

/// Prints bytes that are no request beside one.
fn print_none(rt: &(impl Print + AllocGlobal)) -> Result<()> {
    let alloc = rt.alloc();
    let shared = idle();
    let first = list(
        alloc,
        [speaking(alloc, "GET \n\n\n")?, speaking(alloc, SHORT)?],
    )?;
    let mut door = door(alloc, &shared, first, VecDeque::new(alloc), false, 0)?;
    print_nexts(rt, "beside none", &mut door, 3)
}

/// Prints what is answered where a listener or a wait fails.
fn print_broken(rt: &(impl Print + AllocGlobal)) -> Result<()> {
    let alloc = rt.alloc();
    let shared = idle();
    let first = list(alloc, [Err(NoConnection::Spent), speaking(alloc, SHORT)?])?;
    let mut spent = door(alloc, &shared, first, VecDeque::new(alloc), false, 0)?;
    print_nexts(rt, "spent", &mut spent, 2)?;
    let mut broken = door(
        alloc,
        &shared,
        VecDeque::new(alloc),
        VecDeque::new(alloc),
        true,
        0,
    )?;
    print_nexts(rt, "a wait fails", &mut broken, 1)
}
