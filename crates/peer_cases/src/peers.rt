//! What calls of the real objects give over connections in memory.
use crate::net::{CaseNet, connection};
use anyhow::{Result, bail};
use edge_limits::Pulse;
use http_peers::{CallFault, RealCourier, RealOrchestrator};
use lcm_events::{Act, DefKind, Names, Tag, Verb, Way};
use net_calls::StepWatch;
use outside_edges::{Jobs, RealSite};
use site_traits::{
    AbortAnswer, BeginAnswer, Call, Courier, Heard, LookAnswer, Orchestrator, PostAnswer, Site,
};
use std::alloc::{AllocGlobal, Global};
use std::cell::Cell;
use std::fs::File;
use std::io::Print;
use std::str;
use vim_peers::VimPeer;
use vnfm_base::{Line, Name};

/// Nothing was done yet.
const NOTHING: Pulse = Pulse {
    acted: false,
    asked: false,
    failed: false,
    rounds: 0,
};

/// A network of connections on which these texts come, each in a piece of its own, the first connection last.
fn net_of<'a>(alloc: Global, texts: &[&[&str]], had: &'a Cell<u32>) -> Result<CaseNet<'a>> {
    let mut left = Vec::new(alloc);
    for text in texts {
        left.push(connection(alloc, text, 10_000)?)?;
    }
    Ok(CaseNet { left, had })
}

/// What a call of an orchestrator gave.
fn told(
    rt: &impl Print,
    name: &str,
    call: Call,
    heard: &Heard,
    faults: u64,
    fault: Option<CallFault>,
) -> Result<()> {
    match call {
        Call::Came => {
            let location = match heard.location() {
                Some(line) => str::from_utf8(line)?,
                None => "-",
            };
            println!(rt;
                "{name}: {} {location} {}, {faults} faults",
                heard.status(),
                str::from_utf8(heard.body())?
            )?;
        }
        Call::Failed => println!(rt; "{name}: failed, {fault:?}, {faults} faults")?,
    }
    Ok(())
}

/// An orchestrator over memory.
type Asked<'a> = RealOrchestrator<'a, CaseNet<'a>, StepWatch>;

/// Asks for a grant.
fn ask<'a>(
    rt: &impl Print,
    name: &str,
    orchestrator: &mut Asked<'a>,
    heard: &mut Heard,
) -> Result<()> {
    let call = orchestrator.ask(b"{}", heard);
    let faults = orchestrator.faults();
    told(rt, name, call, heard, faults, orchestrator.fault())
}

/// Polls a grant.
fn poll<'a>(
    rt: &(impl Print + AllocGlobal),
    name: &str,
    orchestrator: &mut Asked<'a>,
    heard: &mut Heard,
) -> Result<()> {
    let Ok(location) = Line::of(rt.alloc(), b"/grant/v1/grants/g1") else {
        bail!("no line");
    };
    let call = orchestrator.poll(&location, heard);
    let faults = orchestrator.faults();
    told(rt, name, call, heard, faults, orchestrator.fault())
}

/// Asks and polls orchestrators.
pub fn ask_orchestrators(rt: &(impl Print + AllocGlobal)) -> Result<()> {
    let alloc = rt.alloc();
    let had = Cell::new(0);
    let pulse = Cell::new(NOTHING);
    let texts: [&[&str]; 4] = [
        &["HTTP/1.1 200 OK\r\nContent-Length: 9\r\n\r\n{\"id\":1}"],
        &["HTTP/1.1 202 Accepted\r\nContent-Length: 0\r\n\r\n"],
        &["HTTP/1.1 202 Accepted\r\nLocation: /grant/v1/grants/g1\r\nContent-Length: 0\r\n\r\n"],
        &["HTTP/1.1 201 Created\r\nContent-Length: 2\r\n\r\n{}"],
    ];
    let net = net_of(alloc, &texts, &had)?;
    let mut orchestrator = RealOrchestrator::made(alloc, net, StepWatch::of(0, 1), &pulse)?;
    let mut heard = Heard::new(alloc)?;
    ask(rt, "without an address", &mut orchestrator, &mut heard)?;
    let found = orchestrator.to("127.0.0.1:9000").is_ok();
    let connected = orchestrator.connect();
    println!(rt; "found {found}, connected {connected}, had {}", had.get())?;
    ask(rt, "granted", &mut orchestrator, &mut heard)?;
    ask(rt, "later", &mut orchestrator, &mut heard)?;
    poll(rt, "not yet", &mut orchestrator, &mut heard)?;
    poll(rt, "cut short", &mut orchestrator, &mut heard)?;
    poll(rt, "nobody listens", &mut orchestrator, &mut heard)?;
    println!(rt;
        "had {}, asked {}, failed {}",
        had.get(),
        pulse.get().asked,
        pulse.get().failed
    )?;
    Ok(())
}

/// Connects to an orchestrator, and prints what came of it.
fn connect<'a>(
    rt: &impl Print,
    name: &str,
    orchestrator: &mut Asked<'a>,
    had: &Cell<u32>,
) -> Result<()> {
    let connected = orchestrator.connect();
    println!(rt;
        "{name}: connected {connected}, {:?}, {} faults, had {}",
        orchestrator.fault(),
        orchestrator.faults(),
        had.get()
    )?;
    Ok(())
}

/// Connects to orchestrators: a connection is had once for each address, and again behind a call.
pub fn connect_orchestrators(rt: &(impl Print + AllocGlobal)) -> Result<()> {
    let alloc = rt.alloc();
    let had = Cell::new(0);
    let pulse = Cell::new(NOTHING);
    let texts: [&[&str]; 3] = [
        &["HTTP/1.1 204 No Content\r\n\r\n"],
        &["HTTP/1.1 204 No Content\r\n\r\n"],
        &[],
    ];
    let net = net_of(alloc, &texts, &had)?;
    let mut orchestrator = RealOrchestrator::made(alloc, net, StepWatch::of(0, 1), &pulse)?;
    let mut heard = Heard::new(alloc)?;
    connect(rt, "no address", &mut orchestrator, &had)?;
    println!(rt; "to: {:?}", orchestrator.to("127.0.0.1:9000"))?;
    connect(rt, "one", &mut orchestrator, &had)?;
    connect(rt, "the same", &mut orchestrator, &had)?;
    println!(rt; "to: {:?}", orchestrator.to("http://127.0.0.1:9002/grants"))?;
    connect(rt, "another", &mut orchestrator, &had)?;
    ask(rt, "ask", &mut orchestrator, &mut heard)?;
    connect(rt, "behind it", &mut orchestrator, &had)?;
    ask(rt, "ask", &mut orchestrator, &mut heard)?;
    connect(rt, "none is left", &mut orchestrator, &had)?;
    println!(rt; "to: {:?}", orchestrator.to("ftp://127.0.0.1:9000"))?;
    connect(rt, "nowhere", &mut orchestrator, &had)?;
    println!(rt; "failed {}", pulse.get().failed)?;
    Ok(())
}

/// A courier over memory.
type Carrier<'a> = RealCourier<'a, CaseNet<'a>, StepWatch>;

/// Posts to this callback.
fn post<'a>(rt: &(impl Print + AllocGlobal), courier: &mut Carrier<'a>, uri: &str) -> Result<()> {
    let Ok(line) = Line::of(rt.alloc(), uri.as_bytes()) else {
        bail!("no line");
    };
    match courier.post(&line, b"{}") {
        PostAnswer::Status(status) => println!(rt;
            "post to {uri}: {status}, {} faults",
            courier.faults()
        )?,
        PostAnswer::Failed => println!(rt;
            "post to {uri}: failed, {:?}, {} faults",
            courier.fault(),
            courier.faults()
        )?,
    }
    Ok(())
}

/// Posts notices.
pub fn post_notices(rt: &(impl Print + AllocGlobal)) -> Result<()> {
    let alloc = rt.alloc();
    let had = Cell::new(0);
    let pulse = Cell::new(NOTHING);
    let texts: [&[&str]; 2] = [
        &["HTTP/1.1 500 Oh\r\nContent-Length: 0\r\n\r\n"],
        &["HTTP/1.1 204 No Content\r\n\r\n"],
    ];
    let net = net_of(alloc, &texts, &had)?;
    let mut courier = RealCourier::made(alloc, net, StepWatch::of(0, 1), &pulse)?;
    post(rt, &mut courier, "http://127.0.0.1:9900/n")?;
    post(rt, &mut courier, "http://127.0.0.1:9900/n?a=b")?;
    post(rt, &mut courier, "https://127.0.0.1:9900/n")?;
    post(rt, &mut courier, "http://127.0.0.1:9900/n")?;
    println!(rt; "had {}, failed {}", had.get(), pulse.get().failed)?;
    Ok(())
}

/// Posts notices to a receiver that answers late: an exchange that met silence is kept, its answer is taken by the next
/// call of the same request alone, once, and behind three looks in vain another exchange is begun.
pub fn keep_answers(rt: &(impl Print + AllocGlobal)) -> Result<()> {
    let alloc = rt.alloc();
    let had = Cell::new(0);
    let pulse = Cell::new(NOTHING);
    let texts: [&[&str]; 5] = [
        &["HTTP/1.1 204 No Content\r\n\r\n"],
        &["", "", "", "", ""],
        &["HTTP/1.1 204 No Content\r\n\r\n"],
        &["HTTP/1.1 500 Oh\r\nContent-Length: 0\r\n\r\n"],
        &["", "", "HTTP/1.1 204 No Content\r\n\r\n"],
    ];
    let net = net_of(alloc, &texts, &had)?;
    let mut courier = RealCourier::made(alloc, net, StepWatch::of(0, 1), &pulse)?;
    println!(rt; "late by two silences, with another notice between")?;
    post(rt, &mut courier, "http://127.0.0.1:9900/n")?;
    post(rt, &mut courier, "http://127.0.0.1:9900/m")?;
    post(rt, &mut courier, "http://127.0.0.1:9900/n")?;
    post(rt, &mut courier, "http://127.0.0.1:9900/n")?;
    println!(rt; "had {}", had.get())?;
    post(rt, &mut courier, "http://127.0.0.1:9900/n")?;
    println!(rt; "had {}; never", had.get())?;
    post(rt, &mut courier, "http://127.0.0.1:9900/n")?;
    post(rt, &mut courier, "http://127.0.0.1:9900/n")?;
    post(rt, &mut courier, "http://127.0.0.1:9900/n")?;
    post(rt, &mut courier, "http://127.0.0.1:9900/n")?;
    println!(rt; "had {}", had.get())?;
    post(rt, &mut courier, "http://127.0.0.1:9900/n")?;
    println!(rt; "had {}", had.get())?;
    Ok(())
}

/// Connects to this callback, and prints what came of it.
fn connect_to<'a>(
    rt: &(impl Print + AllocGlobal),
    courier: &mut Carrier<'a>,
    uri: &str,
    had: &Cell<u32>,
) -> Result<()> {
    let Ok(line) = Line::of(rt.alloc(), uri.as_bytes()) else {
        bail!("no line");
    };
    let connected = courier.connect(&line);
    println!(rt;
        "{uri}: connected {connected}, {:?}, {} faults, had {}",
        courier.fault(),
        courier.faults(),
        had.get()
    )?;
    Ok(())
}

/// Connects to callbacks: those at one address have one connection.
pub fn connect_couriers(rt: &(impl Print + AllocGlobal)) -> Result<()> {
    let alloc = rt.alloc();
    let had = Cell::new(0);
    let pulse = Cell::new(NOTHING);
    let texts: [&[&str]; 2] = [&["HTTP/1.1 204 No Content\r\n\r\n"], &[]];
    let net = net_of(alloc, &texts, &had)?;
    let mut courier = RealCourier::made(alloc, net, StepWatch::of(0, 1), &pulse)?;
    connect_to(rt, &mut courier, "http://127.0.0.1:9900/n", &had)?;
    connect_to(rt, &mut courier, "http://127.0.0.1:9900/m", &had)?;
    connect_to(rt, &mut courier, "http://127.0.0.1:9901/n", &had)?;
    post(rt, &mut courier, "http://127.0.0.1:9901/n")?;
    connect_to(rt, &mut courier, "https://127.0.0.1:9901/n", &had)?;
    connect_to(rt, &mut courier, "http://127.0.0.1:9901/n", &had)
}

/// The name of this text.
fn name(text: &str) -> Result<Name> {
    match Name::of(text.as_bytes()) {
        Some(name) => Ok(name),
        None => bail!("no name"),
    }
}

/// The first change of an instantiation.
fn act(alloc: Global) -> Result<Act> {
    Ok(Act {
        verb: Verb::Create,
        kind: DefKind::Link,
        template: name("net_data")?,
        vdu: name("")?,
        serial: 0,
        vim: name("vim1")?,
        zone: name("")?,
        size: 0,
        cpus: 0,
        on: Names::new(alloc),
    })
}

/// Its attempt.
const TAG: Tag = Tag {
    occ: 1,
    change: 0,
    attempt: 1,
    way: Way::Forward,
};

/// An infrastructure over memory.
type Peer<'a> = RealSite<File, VimPeer<'a, CaseNet<'a>, StepWatch>>;

/// An infrastructure on whose connections these texts come, for manager 7.
fn peer_of<'a>(
    alloc: Global,
    texts: &[&[&str]],
    had: &'a Cell<u32>,
    pulse: &'a Cell<Pulse>,
) -> Result<Peer<'a>> {
    let net = net_of(alloc, texts, had)?;
    let mut peer = VimPeer::made(alloc, net, StepWatch::of(0, 1), pulse)?;
    peer.to("127.0.0.1:9001")?;
    peer.of_manager(7);
    Ok(RealSite::made(peer))
}

/// Begins, and prints what came of it.
fn begin<'a>(rt: &(impl Print + AllocGlobal), peer: &mut Peer<'a>, had: &Cell<u32>) -> Result<()> {
    let act = act(rt.alloc())?;
    let word = match peer.begin(&TAG, &act) {
        BeginAnswer::Begun => "begun",
        BeginAnswer::Refused(_) => "refused",
        BeginAnswer::Failed => "failed",
    };
    println!(rt;
        "begin: {word}, {} faults, had {}",
        peer.vim_faults(),
        had.get()
    )?;
    Ok(())
}

/// Looks, and prints what came of it.
fn look<'a>(rt: &impl Print, peer: &mut Peer<'a>, had: &Cell<u32>) -> Result<()> {
    let word = match peer.look(&TAG) {
        LookAnswer::Absent => "absent",
        LookAnswer::Running => "running",
        LookAnswer::Done(_) => "done",
        LookAnswer::Broken(_) => "broken",
        LookAnswer::Aborted => "aborted",
        LookAnswer::Failed => "failed",
    };
    println!(rt;
        "look: {word}, {} faults, had {}",
        peer.vim_faults(),
        had.get()
    )?;
    Ok(())
}

/// Aborts, and prints what came of it.
fn abort<'a>(rt: &impl Print, peer: &mut Peer<'a>, had: &Cell<u32>) -> Result<()> {
    let word = match peer.abort(&TAG) {
        AbortAnswer::Asked => "asked",
        AbortAnswer::Failed => "failed",
    };
    println!(rt;
        "abort: {word}, {} faults, had {}",
        peer.vim_faults(),
        had.get()
    )?;
    Ok(())
}

/// Each answer of an infrastructure that ends its connection behind each: no end costs a fault.
pub fn call_infrastructures(rt: &(impl Print + AllocGlobal)) -> Result<()> {
    let alloc = rt.alloc();
    let had = Cell::new(0);
    let pulse = Cell::new(NOTHING);
    let texts: [&[&str]; 7] = [
        &["ASKED\n"],
        &["ABORTED\n"],
        &["BROKEN 5\n"],
        &["DONE x7231\n"],
        &["ABSENT\n"],
        &["REFUSED 12\n"],
        &["BE", "GUN\n"],
    ];
    let mut peer = peer_of(alloc, &texts, &had, &pulse)?;
    begin(rt, &mut peer, &had)?;
    begin(rt, &mut peer, &had)?;
    look(rt, &mut peer, &had)?;
    look(rt, &mut peer, &had)?;
    look(rt, &mut peer, &had)?;
    look(rt, &mut peer, &had)?;
    abort(rt, &mut peer, &had)
}

/// Calls that fail, and those behind them: no second connection is had before the first has ended.
pub fn lose_infrastructures(rt: &(impl Print + AllocGlobal)) -> Result<()> {
    let alloc = rt.alloc();
    let had = Cell::new(0);
    let pulse = Cell::new(NOTHING);
    let texts: [&[&str]; 5] = [
        &["RUNNING\n"],
        &["", "", "", "RUNNING\n"],
        &["RUNNING\n"],
        &["BEGUN\nRUNNING\n"],
        &["DONE x7231"],
    ];
    let mut peer = peer_of(alloc, &texts, &had, &pulse)?;
    println!(rt; "a reply that is cut short, two replies, and one to another call")?;
    look(rt, &mut peer, &had)?;
    begin(rt, &mut peer, &had)?;
    begin(rt, &mut peer, &had)?;
    println!(rt; "a silence, and an end that doesn't come, twice, and then does")?;
    look(rt, &mut peer, &had)?;
    look(rt, &mut peer, &had)?;
    look(rt, &mut peer, &had)?;
    look(rt, &mut peer, &had)?;
    println!(rt; "nobody listens")?;
    look(rt, &mut peer, &had)
}
