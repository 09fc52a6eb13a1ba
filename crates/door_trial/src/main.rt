//! The program `door_trial`: a door at two addresses for trials, whose requests are answered with as many bytes as
//! their path says.
#![tactic(auto)]

mod serving;
mod words;

use crate::serving::serve_rounds;
use crate::words::{Asked, read_words, words_of};
use edge_limits::{Pace, Pulse};
use http_wire::Wire;
use net_calls::{StdNet, StdStopwatch};
use net_door::GatheringDoor;
use standard_streams::{NullFiles, hold_streams};
use std::cell::Cell;
use std::env;
use std::process::ExitCode;

fn main(rt: HostRuntime) -> ExitCode {
    ExitCode::from(start(&rt))
}

/// Obeys the words, and gives the program's status.
fn start(rt: &HostRuntime) -> u8 {
    let Ok(args) = env::args(rt) else {
        return misused(rt);
    };
    let Ok(words) = words_of(rt.alloc(), args) else {
        return starved(rt);
    };
    match read_words(&words) {
        Some(asked) => listen_at(rt, asked),
        None => misused(rt),
    }
}

/// Serves at these addresses.
fn listen_at(rt: &HostRuntime, asked: Asked<'_>) -> u8 {
    let Ok(streams) = hold_streams(&mut NullFiles::of(rt)) else {
        return shut(rt);
    };
    let pulse = Cell::new(Pulse::at_start());
    let pace = Cell::new(Pace::at_start());
    let made = GatheringDoor::made(
        rt.alloc(),
        StdNet::of(rt, &streams),
        StdStopwatch::of(rt),
        &pulse,
        &pace,
    );
    let Ok(mut door) = made else {
        return starved(rt);
    };
    if !door.listen(asked.first, asked.second) {
        return shut(rt);
    }
    match Wire::new(rt.alloc(), door) {
        Ok(mut wire) => {
            if serve_rounds(rt, &mut wire, asked.rounds) {
                0
            } else {
                shut(rt)
            }
        }
        Err(_) => starved(rt),
    }
}

/// Says that the words are none, and gives the program's status.
fn misused(rt: &HostRuntime) -> u8 {
    let _ = println!(rt; "usage: door_trial FIRST SECOND ROUNDS");
    2
}

/// Says that an address can't be had, or that the door failed, and gives the program's status.
fn shut(rt: &HostRuntime) -> u8 {
    let _ = println!(rt; "door fault");
    4
}

/// Says that there is no memory, and gives the program's status.
fn starved(rt: &HostRuntime) -> u8 {
    let _ = println!(rt; "no memory");
    6
}
