//! Rounds of a door: a connection, its requests, and what became of them.
ghost use Rattle.std.specs.Prelude.{◌≡◌, ◌≤◌, length, true};
ghost use Rattle.site_traits.specs.Door.{closed};

use http_wire::{CONNECTION_REQUESTS, Request, Taken, Wire, WireFault};
use lcm_events::Role;
use site_traits::{Door, NextAnswer, WriteAnswer};
use std::alloc::AllocGlobal;
use std::io::Print;

/// What a request is answered with whose path isn't a number.
const FINE: &[u8] = b"HTTP/1.1 200 OK\r\nContent-Length: 5\r\n\r\nfine\n";

/// What is said of one that is too large.
const TOO_LARGE: &[u8] =
    b"HTTP/1.1 413 Content Too Large\r\nContent-Length: 0\r\nConnection: close\r\n\r\n";

/// What is said of bytes that are none.
const MALFORMED: &[u8] =
    b"HTTP/1.1 400 Bad Request\r\nContent-Length: 0\r\nConnection: close\r\n\r\n";

/// What a reply without a length begins with: its end is that of the connection.
const ENDLESS: &[u8] = b"HTTP/1.1 200 OK\r\nConnection: close\r\n\r\n";

/// What its content is made of.
const FILLER: &[u8] = &[b'x'; 4_096];

/// What became of a connection.
#[derive(Drop)]
struct Served {
    /// How many replies were told whole.
    told: u32,
    /// Why no more were.
    why: &'static str,
}

/// Asks the door so often for a connection, and prints what became of each. Whether the door didn't fail.
pub fn serve_rounds<D: Door + Drop>(
    rt: &(impl Print + AllocGlobal),
    wire: &mut Wire<D>,
    rounds: u32,
) -> bool {
    if println!(rt; "up").is_err() {
        return false;
    }
    for _ in 0..rounds {
        wire.renew();
        match wire.door_mut().next() {
            NextAnswer::Came(role) => {
                let served = serve(rt, wire);
                wire.door_mut().hang_up();
                let who = name_of(role);
                if println!(rt; "{who}: {} told, {}", served.told, served.why).is_err() {
                    return false;
                }
            }
            NextAnswer::Nobody => {}
            NextAnswer::Ended => return true,
            NextAnswer::Failed => return false,
        }
    }
    true
}

/// Whose connection it is.
fn name_of(role: Role) -> &'static str {
    match role {
        Role::Orchestrator => "orchestrator",
        Role::Element => "element manager",
    }
}

/// Answers the requests of the connection at hand.
fn serve<D: Door + Drop>(rt: &impl AllocGlobal, wire: &mut Wire<D>) -> Served
    requires { wire.old.intake.counts.up ≡ true }
    ensures { wire.new.intake.counts.up ≡ true }
{
    let mut told = 0u32;
    for _ in 0..CONNECTION_REQUESTS {
        let why = match wire.take_request(rt.alloc()) {
            Ok(Taken::Request(request)) => answer(wire.door_mut(), &request),
            Ok(Taken::End) => return Served { told, why: "end" },
            Err(fault) => refuse(wire.door_mut(), fault),
        };
        match why {
            Some(why) => return Served { told, why },
            None => told = told.saturating_add(1),
        }
    }
    Served { told, why: "many" }
}

/// Answers this request. Why no further one is answered, where none is.
fn answer<D: Door>(door: &mut D, request: &Request) -> Option<&'static str>
    requires { (D.counts door.old).up ≡ true }
    ensures { (D.counts door.new).up ≡ true }
{
    let target = request.target.as_str();
    let size = match target.strip_prefix('/') {
        Some(path) => path.parse::<u32>().ok(),
        None => None,
    };
    let whole = match size {
        Some(size) => write_filler(door, size),
        None => write_all(door, FINE),
    };
    if !whole {
        Some("a write failed")
    } else if size.is_some() || request.last {
        Some("last")
    } else {
        None
    }
}

/// Says why there was no request, where something is to be said of it.
fn refuse<D: Door>(door: &mut D, fault: WireFault) -> Option<&'static str>
    requires { (D.counts door.old).up ≡ true }
    ensures { (D.counts door.new).up ≡ true }
{
    Some(match fault {
        WireFault::TooLarge => {
            write_all(door, TOO_LARGE);
            "too large"
        }
        WireFault::Malformed => {
            write_all(door, MALFORMED);
            "malformed"
        }
        WireFault::Unfinished => "unfinished",
        WireFault::Read => "a read failed",
        WireFault::Memory => "no memory",
    })
}

/// Writes a reply with so many bytes of content. Whether it went out whole.
fn write_filler<D: Door>(door: &mut D, size: u32) -> bool
    requires { (D.counts door.old).up ≡ true }
    ensures { (D.counts door.new).up ≡ true }
{
    if !write_all(door, ENDLESS) {
        return false;
    }
    for _ in 0..size / 4_096 {
        if !write_all(door, FILLER) {
            return false;
        }
    }
    write_all(door, &FILLER[..(size % 4_096) as usize])
}

/// Writes all of these bytes. Whether they went out.
fn write_all<D: Door>(door: &mut D, bytes: &[u8]) -> bool
    requires { (D.counts door.old).up ≡ true }
    ensures { (D.counts door.new).up ≡ true }
{
    let mut at = 0;
    while at < bytes.len() {
        match door.write(&bytes[at..]) {
            WriteAnswer::Took(count) => at += count,
            WriteAnswer::Failed => return false,
        }
    }
    true
}
