//! Calls on the real peers at an address, and what is told of them.
use anyhow::{Result, bail};
use edge_limits::Pulse;
use http_peers::{RealCourier, RealOrchestrator};
use lcm_events::{Act, DefKind, Names, Tag, Verb, Way};
use net_calls::{StdNet, StdStopwatch};
use outside_edges::{Jobs, RealSite};
use site_traits::{
    AbortAnswer, BeginAnswer, Call, Courier, Heard, LookAnswer, Orchestrator, PostAnswer, Site,
};
use standard_streams::HeldStreams;
use std::alloc::Global;
use std::cell::Cell;
use std::fs::File;
use std::time::Duration;
use std::{str, thread};
use vim_peers::VimPeer;
use vnfm_base::{Line, Name};

/// The numbers of the standard streams, held.
pub type Held = HeldStreams<File>;

/// The machine's network.
pub type Network<'a> = StdNet<'a, HostRuntime, File>;

/// The machine's stopwatch.
pub type Watch<'a> = StdStopwatch<'a, HostRuntime>;

/// An orchestrator over sockets.
pub type Asked<'a> = RealOrchestrator<'a, Network<'a>, Watch<'a>>;

/// A courier over sockets.
pub type Carrier<'a> = RealCourier<'a, Network<'a>, Watch<'a>>;

/// An infrastructure over sockets.
pub type Peer<'a> = VimPeer<'a, Network<'a>, Watch<'a>>;

/// A site with no file, and an infrastructure over sockets.
pub type Vim<'a> = RealSite<File, Peer<'a>>;

/// Nothing was done yet.
pub const NOTHING: Pulse = Pulse {
    acted: false,
    asked: false,
    failed: false,
    rounds: 0,
};

/// The name of this text.
fn name(text: &str) -> Result<Name> {
    match Name::of(text.as_bytes()) {
        Some(name) => Ok(name),
        None => bail!("no name"),
    }
}

/// The first change of an instantiation.
fn act(alloc: Global) -> Result<Act> {
    Ok(Act {
        verb: Verb::Create,
        kind: DefKind::Link,
        template: name("net_data")?,
        vdu: name("")?,
        serial: 0,
        vim: name("vim1")?,
        zone: name("")?,
        size: 0,
        cpus: 0,
        on: Names::new(alloc),
    })
}

/// Its attempt.
const TAG: Tag = Tag {
    occ: 1,
    change: 0,
    attempt: 1,
    way: Way::Forward,
};

/// An orchestrator that asks at this address.
pub fn real_orchestrator<'a>(
    rt: &'a HostRuntime,
    streams: &'a Held,
    pulse: &'a Cell<Pulse>,
    at: &str,
) -> Result<Asked<'a>> {
    let net = StdNet::of(rt, streams);
    let mut asked = RealOrchestrator::made(rt.alloc(), net, StdStopwatch::of(rt), pulse)?;
    if asked.to(at).is_err() {
        bail!("the address leads nowhere");
    }
    Ok(asked)
}

/// A courier.
pub fn real_courier<'a>(
    rt: &'a HostRuntime,
    streams: &'a Held,
    pulse: &'a Cell<Pulse>,
) -> Result<Carrier<'a>> {
    let net = StdNet::of(rt, streams);
    let courier = RealCourier::made(rt.alloc(), net, StdStopwatch::of(rt), pulse)?;
    Ok(courier)
}

/// A site whose infrastructure is at this address, for manager 7.
pub fn real_peer<'a>(
    rt: &'a HostRuntime,
    streams: &'a Held,
    pulse: &'a Cell<Pulse>,
    at: &str,
) -> Result<Vim<'a>> {
    let net = StdNet::of(rt, streams);
    let mut peer = VimPeer::made(rt.alloc(), net, StdStopwatch::of(rt), pulse)?;
    peer.to(at)?;
    peer.of_manager(7);
    Ok(RealSite::made(peer))
}

/// Asks for a grant, and prints what came of it.
pub fn ask<'a>(rt: &HostRuntime, asked: &mut Asked<'a>, heard: &mut Heard) -> Result<()> {
    match asked.ask(b"{}", heard) {
        Call::Came => println!(rt;
            "ask: {} {}, {} faults",
            heard.status(),
            str::from_utf8(heard.body())?,
            asked.faults()
        )?,
        Call::Failed => println!(rt; "ask: failed, {} faults", asked.faults())?,
    }
    Ok(())
}

/// Polls a grant, and prints what came of it.
pub fn poll<'a>(rt: &HostRuntime, asked: &mut Asked<'a>, heard: &mut Heard) -> Result<()> {
    let Ok(location) = Line::of(rt.alloc(), b"/grant/v1/grants/g1") else {
        bail!("no line");
    };
    match asked.poll(&location, heard) {
        Call::Came => println!(rt;
            "poll: {} {}, {} faults",
            heard.status(),
            str::from_utf8(heard.body())?,
            asked.faults()
        )?,
        Call::Failed => println!(rt; "poll: failed, {} faults", asked.faults())?,
    }
    Ok(())
}

/// Posts a notice, and prints what came of it.
pub fn post<'a>(rt: &HostRuntime, courier: &mut Carrier<'a>, uri: &Line) -> Result<()> {
    match courier.post(uri, b"{}") {
        PostAnswer::Status(status) => println!(rt; "post: {status}, {} faults", courier.faults())?,
        PostAnswer::Failed => println!(rt; "post: failed, {} faults", courier.faults())?,
    }
    Ok(())
}

/// Begins a job, and prints what came of it.
pub fn begin<'a>(rt: &HostRuntime, site: &mut Vim<'a>) -> Result<()> {
    let act = act(rt.alloc())?;
    let word = match site.begin(&TAG, &act) {
        BeginAnswer::Begun => "begun",
        BeginAnswer::Refused(_) => "refused",
        BeginAnswer::Failed => "failed",
    };
    println!(rt; "begin: {word}, {} faults", site.vim_faults())?;
    Ok(())
}

/// Looks at it, and prints what came of it.
pub fn look<'a>(rt: &HostRuntime, site: &mut Vim<'a>) -> Result<()> {
    let word = match site.look(&TAG) {
        LookAnswer::Absent => "absent",
        LookAnswer::Running => "running",
        LookAnswer::Done(_) => "done",
        LookAnswer::Broken(_) => "broken",
        LookAnswer::Aborted => "aborted",
        LookAnswer::Failed => "failed",
    };
    println!(rt; "look: {word}, {} faults", site.vim_faults())?;
    Ok(())
}

/// Aborts it, and prints what came of it.
pub fn abort<'a>(rt: &HostRuntime, site: &mut Vim<'a>) -> Result<()> {
    let word = match site.abort(&TAG) {
        AbortAnswer::Asked => "asked",
        AbortAnswer::Failed => "failed",
    };
    println!(rt; "abort: {word}, {} faults", site.vim_faults())?;
    Ok(())
}

/// Calls the infrastructure at this address: a look, a begin, eight looks with a second between, as between the rounds
/// of a program behind a call that failed, and an abort.
pub fn call_vim(rt: &HostRuntime, streams: &Held, at: &str) -> Result<()> {
    let pulse = Cell::new(NOTHING);
    let mut site = real_peer(rt, streams, &pulse, at)?;
    look(rt, &mut site)?;
    begin(rt, &mut site)?;
    for _ in 0..8u8 {
        thread::sleep(rt, Duration::from_millis(1_000));
        look(rt, &mut site)?;
    }
    abort(rt, &mut site)
}

/// Asks the orchestrator at this address twice, and polls it once.
pub fn call_orchestrator(rt: &HostRuntime, streams: &Held, at: &str) -> Result<()> {
    let pulse = Cell::new(NOTHING);
    let mut heard = Heard::new(rt.alloc())?;
    let mut asked = real_orchestrator(rt, streams, &pulse, at)?;
    ask(rt, &mut asked, &mut heard)?;
    ask(rt, &mut asked, &mut heard)?;
    poll(rt, &mut asked, &mut heard)
}

/// Posts to this callback twice.
pub fn call_courier(rt: &HostRuntime, streams: &Held, uri: &str) -> Result<()> {
    let pulse = Cell::new(NOTHING);
    let Ok(line) = Line::of(rt.alloc(), uri.as_bytes()) else {
        bail!("no line");
    };
    let mut courier = real_courier(rt, streams, &pulse)?;
    post(rt, &mut courier, &line)?;
    post(rt, &mut courier, &line)
}
