//! The program `vim_sim`: an infrastructure in memory for trials, which serves one connection after another at an
//! address.
#![tactic(auto)]

mod words;

use crate::words::{Asked, read_words, words_of};
use std::env;
use std::io::ErrorKind;
use std::net::TcpListener;
use std::process::ExitCode;
use vim_jobs::{Served, VimJobs, serve};

/// Connections that are served, one after another.
const CONNECTIONS: u32 = u32::MAX;

/// What `--help` prints.
const HELP: &str = "vim_sim: an infrastructure in memory for trials of vnfm

    vim_sim --listen HOST:PORT [--looks K]

It serves one connection after another at the address. Each job that is begun is told as running to K looks,
    0 where the option
isn't given, and then as done, on the resource r1, r2 and on. A begin whose job is there already is told as begun,
    and changes
nothing. A line that is no call ends its connection. What was begun is lost when the program ends.

    0  as many connections were served as are served at all
    2  usage: vim_sim    the words are others
    4  door fault        the address can't be had
    6  no memory
";

/// What `--version` prints.
const VERSION: &str = "vim_sim 0.1.0\n";

fn main(rt: HostRuntime) -> ExitCode {
    ExitCode::from(start(&rt))
}

/// Obeys the words, and gives the program's status.
fn start(rt: &HostRuntime) -> u8 {
    let args = match env::args(rt) {
        Ok(args) => args,
        Err(fault) if fault.kind() == ErrorKind::OutOfMemory => return starved(rt),
        Err(_) => return misused(rt),
    };
    let Ok(words) = words_of(rt.alloc(), args) else {
        return starved(rt);
    };
    match read_words(&words) {
        Some(Asked::Help) => print(rt, HELP),
        Some(Asked::Version) => print(rt, VERSION),
        Some(Asked::Serve { listen, looks }) => listen_at(rt, listen, looks),
        None => misused(rt),
    }
}

/// Serves the connections that come at this address.
fn listen_at(rt: &HostRuntime, listen: &str, looks: u32) -> u8 {
    let listener = match TcpListener::bind(rt, listen) {
        Ok(listener) => listener,
        Err(fault) if fault.kind() == ErrorKind::OutOfMemory => return starved(rt),
        Err(_) => {
            let _ = println!(rt; "door fault");
            return 4;
        }
    };
    let mut jobs = VimJobs::new(rt.alloc(), looks);
    for _ in 0..CONNECTIONS {
        // One that ended before it was taken is none.
        let Ok((stream, _)) = listener.accept() else {
            continue;
        };
        if let Served::Memory = serve(rt.alloc(), &mut jobs, &stream, &mut &stream) {
            return starved(rt);
        }
    }
    0
}

/// Prints a page, and gives the program's status.
fn print(rt: &HostRuntime, page: &str) -> u8 {
    match print!(rt; "{page}") {
        Ok(()) => 0,
        Err(_) => 7,
    }
}

/// Says that the words are no command, and gives the program's status.
fn misused(rt: &HostRuntime) -> u8 {
    let _ = println!(rt; "usage: vim_sim");
    2
}

/// Says that there is no memory, and gives the program's status.
fn starved(rt: &HostRuntime) -> u8 {
    let _ = println!(rt; "no memory");
    6
}
