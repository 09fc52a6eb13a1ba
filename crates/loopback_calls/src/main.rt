//! Real peers over sockets on loopback. Without a word, each call is made on a peer of the program's own, whose answer
//! was written beforehand; `vim ADDRESS`, `ask ADDRESS` and `post URI` make calls on a peer at an address, for the
//! scripts.
#![tactic(auto)]

mod calls;
mod own;

use crate::calls::Held;
use anyhow::{Result, bail};
use standard_streams::{NullFiles, hold_streams};
use std::env;

fn main(rt: HostRuntime) -> Result<()> {
    let mut device = NullFiles::of(&rt);
    let streams = hold_streams(&mut device)?;
    let mut words = Vec::new(rt.alloc());
    for word in env::args(&rt)? {
        words.push(word)?;
    }
    match words.as_slice() {
        [_] => own::call_own(&rt, &streams),
        [_, mode, at] => obey(&rt, &streams, mode, at),
        _ => bail!("loopback_calls [vim ADDRESS | ask ADDRESS | post URI]"),
    }
}

/// Makes calls of this kind on the peer at this address.
fn obey(rt: &HostRuntime, streams: &Held, mode: &str, at: &str) -> Result<()> {
    if mode == "vim" {
        calls::call_vim(rt, streams, at)
    } else if mode == "ask" {
        calls::call_orchestrator(rt, streams, at)
    } else if mode == "post" {
        calls::call_courier(rt, streams, at)
    } else {
        bail!("no such calls")
    }
}
