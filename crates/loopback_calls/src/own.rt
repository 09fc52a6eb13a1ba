//! Calls on peers of the program's own, on loopback and in one thread: the answer is written before the call.
use crate::calls::{
    Held, NOTHING, abort, ask, begin, look, poll, post, real_courier, real_orchestrator, real_peer,
};
use anyhow::{Result, bail};
use site_traits::Heard;
use std::cell::Cell;
use std::io::Write;
use std::net::{TcpListener, TcpStream};
use vnfm_base::Line;

/// An address at which nobody listens.
const NOWHERE: &str = "127.0.0.1:1";

/// The connection that has come here, on which this was written.
fn answered(listener: &TcpListener, text: &str) -> Result<TcpStream> {
    let (mut stream, _) = listener.accept()?;
    stream.write_all(text.as_bytes())?;
    Ok(stream)
}

/// Asks for a grant and polls it, each answered beforehand.
fn ask_own(rt: &HostRuntime, streams: &Held) -> Result<()> {
    let listener = TcpListener::bind(rt, "127.0.0.1:0")?;
    let at = format!(in rt.alloc(); "{}", listener.local_addr()?)?;
    let pulse = Cell::new(NOTHING);
    let mut heard = Heard::new(rt.alloc())?;
    let mut asked = real_orchestrator(rt, streams, &pulse, &at)?;
    let connected = asked.connect();
    let peer = answered(
        &listener,
        "HTTP/1.1 201 Created\r\nContent-Length: 2\r\n\r\n{}",
    )?;
    ask(rt, &mut asked, &mut heard)?;
    drop(peer);
    let again = asked.connect();
    let peer = answered(
        &listener,
        "HTTP/1.1 202 Accepted\r\nContent-Length: 0\r\n\r\n",
    )?;
    poll(rt, &mut asked, &mut heard)?;
    drop(peer);
    println!(rt; "connected {connected} {again}")?;
    Ok(())
}

/// Posts a notice, answered beforehand.
fn post_own(rt: &HostRuntime, streams: &Held) -> Result<()> {
    let listener = TcpListener::bind(rt, "127.0.0.1:0")?;
    let uri = format!(in rt.alloc(); "http://{}/n", listener.local_addr()?)?;
    let Ok(line) = Line::of(rt.alloc(), uri.as_bytes()) else {
        bail!("no line");
    };
    let pulse = Cell::new(NOTHING);
    let mut courier = real_courier(rt, streams, &pulse)?;
    let connected = courier.connect(&line);
    let peer = answered(&listener, "HTTP/1.1 204 No Content\r\n\r\n")?;
    post(rt, &mut courier, &line)?;
    drop(peer);
    println!(rt; "connected {connected}")?;
    Ok(())
}

/// Begins a job, looks at it and aborts it, each answered beforehand on a connection that ends behind it.
fn jobs_own(rt: &HostRuntime, streams: &Held) -> Result<()> {
    let listener = TcpListener::bind(rt, "127.0.0.1:0")?;
    let at = format!(in rt.alloc(); "{}", listener.local_addr()?)?;
    let pulse = Cell::new(NOTHING);
    let mut site = real_peer(rt, streams, &pulse, &at)?;
    let first = site.connect();
    let peer = answered(&listener, "BEGUN\n")?;
    begin(rt, &mut site)?;
    drop(peer);
    let second = site.connect();
    let peer = answered(&listener, "RUNNING\n")?;
    look(rt, &mut site)?;
    drop(peer);
    let third = site.connect();
    let peer = answered(&listener, "ASKED\n")?;
    abort(rt, &mut site)?;
    drop(peer);
    println!(rt; "connected {first} {second} {third}")?;
    Ok(())
}

/// Calls where nobody listens.
fn call_nobody(rt: &HostRuntime, streams: &Held) -> Result<()> {
    let pulse = Cell::new(NOTHING);
    let mut heard = Heard::new(rt.alloc())?;
    let mut asked = real_orchestrator(rt, streams, &pulse, NOWHERE)?;
    ask(rt, &mut asked, &mut heard)?;
    let mut site = real_peer(rt, streams, &pulse, NOWHERE)?;
    begin(rt, &mut site)?;
    look(rt, &mut site)?;
    abort(rt, &mut site)?;
    let connected = site.connect();
    println!(rt; "connected {connected}, {} faults", site.vim_faults())?;
    Ok(())
}

/// Posts where nobody listens.
fn post_nobody(rt: &HostRuntime, streams: &Held) -> Result<()> {
    let pulse = Cell::new(NOTHING);
    let Ok(line) = Line::of(rt.alloc(), b"http://127.0.0.1:1/n") else {
        bail!("no line");
    };
    let mut courier = real_courier(rt, streams, &pulse)?;
    post(rt, &mut courier, &line)
}

/// Each call on a peer of the program's own, and where nobody listens.
pub fn call_own(rt: &HostRuntime, streams: &Held) -> Result<()> {
    ask_own(rt, streams)?;
    post_own(rt, streams)?;
    jobs_own(rt, streams)?;
    call_nobody(rt, streams)?;
    post_nobody(rt, streams)
}
