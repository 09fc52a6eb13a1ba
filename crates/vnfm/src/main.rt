//! The program `vnfm`: it makes the real objects, and hands them to the program's one call.
#![tactic(auto)]

use edge_limits::{Pace, Pulse};
use host_calls::StdTime;
use http_peers::{RealCourier, RealOrchestrator, TargetFault};
use lcm_events::Role;
use lcm_mouth::Mouth;
use net_calls::{StdNet, StdStopwatch};
use net_door::GatheringDoor;
use outside_edges::{
    Jobs, NoCourier, NoJobs, NoOrchestrator, RealClock, RealDoor, RealSink, RealSite,
};
use served_edges::{
    NotedFile, NotedFiles, PeerFaults, ServedDoor, WatchedCourier, WatchedJobs,
    WatchedOrchestrator, listening_line, no_listening_line,
};
use site_traits::{Courier, Orchestrator, Sink};
use standard_streams::{HeldStreams, NullFiles, hold_streams};
use std::alloc::AllocError;
use std::cell::Cell;
use std::env;
use std::fs::File;
use std::process::ExitCode;
use vim_peers::VimPeer;
use vnfm_cli::{Command, Settings};
use vnfm_program::{AnswerDoor, Machine, settings_in, start};

/// The numbers of the standard streams, held.
type Held = HeldStreams<File>;

/// The machine's network.
type Network<'a> = StdNet<'a, HostRuntime, File>;

/// The machine's stopwatch.
type Watch<'a> = StdStopwatch<'a, HostRuntime>;

/// An orchestrator over sockets.
type Asked<'a> = WatchedOrchestrator<'a, RealOrchestrator<'a, Network<'a>, Watch<'a>>>;

/// A courier over sockets.
type Carrier<'a> = WatchedCourier<'a, RealCourier<'a, Network<'a>, Watch<'a>>>;

/// An infrastructure over sockets.
type Vim<'a> = WatchedJobs<'a, VimPeer<'a, Network<'a>, Watch<'a>>>;

/// What the real objects share: what was done since the door was last asked, what came of the rounds, and how often
/// calls on peers failed.
#[derive(Drop)]
struct Shared {
    pulse: Cell<Pulse>,
    pace: Cell<Pace>,
    faults: PeerFaults,
}

impl Shared {
    /// Nothing was done yet.
    fn new() -> Shared {
        Shared {
            pulse: Cell::new(Pulse::at_start()),
            pace: Cell::new(Pace::at_start()),
            faults: PeerFaults::none(),
        }
    }
}

/// Starts the program with this door and these peers. Where there is no door, it says that there is no memory.
fn start_with<
    'a,
    J: Jobs<NotedFile<'a, HostRuntime>> + Drop,
    Q: Orchestrator + Drop,
    C: Courier + Drop,
    D: AnswerDoor + Drop,
>(
    rt: &'a HostRuntime,
    shared: &'a Shared,
    jobs: J,
    orchestrator: Q,
    courier: C,
    door: Result<D, AllocError>,
) -> u8 {
    let mut machine = Machine {
        device: NullFiles::of(rt),
        files: NotedFiles::of(rt.alloc(), rt, &shared.pulse, &shared.pace),
        site: RealSite::made(jobs),
        spare: RealSite::made(NoJobs::made()),
        orchestrator,
        courier,
        clock: RealClock::made(StdTime::of(rt)),
        lines: RealSink::made(rt.stdout()),
        errors: RealSink::made(rt.stderr()),
    };
    let mut mouth = match door {
        Ok(door) => Mouth::new(rt.alloc(), door),
        Err(AllocError) => Err(AllocError),
    };
    start(rt.alloc(), env::args(rt), &mut mouth, &mut machine)
}

/// Starts the program with peers that are never reached: where there is no memory for others, it says so.
fn start_alone(rt: &HostRuntime, shared: &Shared, has_memory: bool) -> u8 {
    let door = RealDoor::made(rt.stdin(), rt.stdout(), Role::Orchestrator);
    start_with(
        rt,
        shared,
        NoJobs::made(),
        NoOrchestrator::made(),
        NoCourier::made(),
        if has_memory {
            Ok(door)
        } else {
            Err(AllocError)
        },
    )
}

/// The orchestrator at this address. One that leads nowhere is never reached.
fn orchestrator_at<'a>(
    rt: &'a HostRuntime,
    streams: &'a Held,
    shared: &'a Shared,
    address: &str,
) -> Result<Asked<'a>, AllocError> {
    let net = StdNet::of(rt, streams);
    let watch = StdStopwatch::of(rt);
    let mut asked = RealOrchestrator::made(rt.alloc(), net, watch, &shared.pulse)?;
    match asked.to(address) {
        Err(TargetFault::Memory) => Err(AllocError),
        _ => Ok(WatchedOrchestrator::made(rt.alloc(), asked, &shared.faults, &shared.pace)),
    }
}

/// What posts notifications.
fn courier_of<'a>(
    rt: &'a HostRuntime,
    streams: &'a Held,
    shared: &'a Shared,
) -> Result<Carrier<'a>, AllocError> {
    let net = StdNet::of(rt, streams);
    let courier = RealCourier::made(rt.alloc(), net, StdStopwatch::of(rt), &shared.pulse)?;
    Ok(WatchedCourier::made(courier, &shared.faults, &shared.pace))
}

/// The infrastructure at this address.
fn vim_at<'a>(
    rt: &'a HostRuntime,
    streams: &'a Held,
    shared: &'a Shared,
    address: &str,
) -> Result<Vim<'a>, AllocError> {
    let net = StdNet::of(rt, streams);
    let mut vim = VimPeer::made(rt.alloc(), net, StdStopwatch::of(rt), &shared.pulse)?;
    vim.to(address)?;
    Ok(WatchedJobs::made(vim, &shared.faults, &shared.pace))
}

/// Starts the program with this door and the peers at the addresses that these settings name.
fn start_among<'a, D: AnswerDoor + Drop>(
    rt: &'a HostRuntime,
    streams: &'a Held,
    shared: &'a Shared,
    settings: &Settings,
    door: D,
) -> u8 {
    let asked = orchestrator_at(rt, streams, shared, settings.orchestrator.as_str());
    let courier = courier_of(rt, streams, shared);
    let vim = vim_at(rt, streams, shared, settings.vim.as_str());
    match (vim, asked, courier) {
        (Ok(vim), Ok(asked), Ok(courier)) => {
            start_with(rt, shared, vim, asked, courier, Ok(door))
        }
        _ => start_alone(rt, shared, false),
    }
}

/// Says on standard error where the program listens, or that it can't. Without memory it says nothing.
fn say_where(rt: &HostRuntime, settings: &Settings, listens: bool) {
    let orchestrator = settings.listen.as_str();
    let element = settings.em_listen.as_str();
    let line = if listens {
        listening_line(rt.alloc(), orchestrator, element)
    } else {
        no_listening_line(rt.alloc(), orchestrator, element)
    };
    if let Ok(line) = line {
        let _ = RealSink::made(rt.stderr()).put(line.as_bytes());
    }
}

/// Starts the program for `serve`, over the connections at the addresses that these settings name.
fn start_at_addresses(
    rt: &HostRuntime,
    streams: &Held,
    shared: &Shared,
    settings: &Settings,
) -> u8 {
    let net = StdNet::of(rt, streams);
    let watch = StdStopwatch::of(rt);
    match GatheringDoor::made(rt.alloc(), net, watch, &shared.pulse, &shared.pace) {
        Ok(mut addresses) => {
            let listens = addresses.listen(settings.listen.as_str(), settings.em_listen.as_str());
            say_where(rt, settings, listens);
            let watch = StdStopwatch::of(rt);
            let out = RealSink::made(rt.stderr());
            let door = ServedDoor::made(addresses, watch, out, &shared.faults);
            start_among(rt, streams, shared, settings, door)
        }
        Err(AllocError) => start_alone(rt, shared, false),
    }
}

/// Starts the program for `once`, over standard input and output.
fn start_on_streams(rt: &HostRuntime, streams: &Held, shared: &Shared, settings: &Settings) -> u8 {
    let door = RealDoor::made(rt.stdin(), rt.stdout(), Role::Orchestrator);
    start_among(rt, streams, shared, settings, door)
}

/// Starts the program for these settings. Only `once` and `serve` call their peers. Where the numbers of the standard
/// streams can't be held, no socket is opened.
fn start_by(rt: &HostRuntime, shared: &Shared, settings: &Settings) -> u8 {
    let mut device = NullFiles::of(rt);
    match settings.command {
        Command::Once => match hold_streams(&mut device) {
            Ok(streams) => start_on_streams(rt, &streams, shared, settings),
            Err(_) => start_alone(rt, shared, true),
        },
        Command::Serve => match hold_streams(&mut device) {
            Ok(streams) => start_at_addresses(rt, &streams, shared, settings),
            Err(_) => start_alone(rt, shared, true),
        },
        Command::Init | Command::Onboard | Command::Check | Command::Migrate | Command::Trial =>
            start_alone(rt, shared, true),
    }
}

fn main(rt: HostRuntime) -> ExitCode {
    let shared = Shared::new();
    let status = match settings_in(rt.alloc(), env::args(&rt)) {
        Ok(Some(settings)) => start_by(&rt, &shared, &settings),
        Ok(None) => start_alone(&rt, &shared, true),
        Err(AllocError) => start_alone(&rt, &shared, false),
    };
    ExitCode::from(status)
}
