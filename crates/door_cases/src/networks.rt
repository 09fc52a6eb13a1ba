//! A network in memory.

use crate::connections::connection;
use anyhow::{Result, bail};
use net_calls::{HostNet, MemConnection, MemListener, MemNet, NoConnection};
use std::alloc::{AllocError, AllocGlobal, Global};
use std::collections::VecDeque;
use std::io::Print;

/// A list of these.
pub fn list<T: Drop, const N: usize>(
    alloc: Global,
    items: [T; N],
) -> Result<VecDeque<T>, AllocError> {
    Ok(VecDeque::from_vec(Vec::from_array(alloc, items)?))
}

/// A listener at the address `127.0.0.1:1`, at which these come.
pub fn listener<const N: usize>(
    alloc: Global,
    coming: [Result<MemConnection, NoConnection>; N],
) -> Result<Option<MemListener>, AllocError> {
    Ok(Some(MemListener::of(b"127.0.0.1:1".to_vec(alloc)?, list(alloc, coming)?)))
}

/// Prints what listening, accepting, waiting and connecting give.
pub fn print_networks(rt: &(impl Print + AllocGlobal)) -> Result<()> {
    let alloc = rt.alloc();
    let coming = [
        Err(NoConnection::Nobody),
        Ok(connection(alloc, b"one", &[], 9)?),
        Err(NoConnection::Spent),
        Err(NoConnection::Failed),
    ];
    let elsewhere = listener(alloc, [])?;
    let listeners = list(alloc, [listener(alloc, coming)?, None, elsewhere])?;
    let peers = list(alloc, [Some(connection(alloc, b"two", &[], 9)?), None])?;
    let mut net = MemNet::of(listeners, peers, false);
    let Ok(mut first) = net.listen("127.0.0.1:1") else {
        bail!("it can't listen");
    };
    println!(rt; "listen again {}", net.listen("127.0.0.1:1").is_ok())?;
    println!(rt; "listen elsewhere {}", net.listen("127.0.0.1:2").is_ok())?;
    for _ in 0..5 {
        match net.accept(&mut first) {
            Ok(connection) => println!(rt; "came, left {}", connection.left().len())?,
            Err(why) => println!(rt; "{why:?}")?,
        }
    }
    for _ in 0..3 {
        match net.connect("127.0.0.1:3", 1) {
            Ok(connection) => println!(rt; "connected, left {}", connection.left().len())?,
            Err(fault) => println!(rt; "connect {:?}", fault.kind())?,
        }
    }
    println!(rt; "wait {}", net.wait(Some(&first), None, &[], 30).is_ok())?;
    println!(rt; "wait {}", net.wait(None, None, &[], 40).is_ok())?;
    println!(rt; "waits {}, the last {}", net.waits(), net.last_wait())?;
    let mut broken = MemNet::of(list(alloc, [])?, list(alloc, [])?, true);
    println!(rt; "wait {}", broken.wait(None, None, &[], 50).is_ok())?;
    println!(rt; "waits {}, the last {}", broken.waits(), broken.last_wait())?;
    Ok(())
}
