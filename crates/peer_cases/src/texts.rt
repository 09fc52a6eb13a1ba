//! What texts are as answers, and exchanges in which they come.
use crate::net::{connection, in_pieces};
use anyhow::Result;
use edge_limits::Exchange;
use http_client::{ResponseFault, read_ended_response, read_response};
use http_peers::HttpReply;
use net_calls::{MemConnection, StepWatch};
use peer_exchange::{Room, exchange};
use site_traits::Heard;
use std::alloc::{AllocGlobal, Global};
use std::io::Print;
use std::str;

/// Texts that come on a connection.
const TEXTS: [&str; 26] = [
    "HTTP/1.1 204 No Content\r\n\r\n",
    "HTTP/1.1 201 Created\r\nContent-Length: 2\r\n\r\n{}",
    "HTTP/1.1 202 Accepted\r\nLocation: /grant/v1/grants/g1\r\nContent-Length: 0\r\n\r\n",
    "HTTP/1.1 202 Accepted\r\nlocation:  a \r\nLocation: b\r\ncontent-length: 0\r\n\r\n",
    "HTTP/1.1 202\r\nLocation: \r\nContent-Length: 0\r\n\r\n",
    "HTTP/1.1 100 Continue\r\n\r\nHTTP/1.1 102 Processing\r\n\r\nHTTP/1.1 204 No Content\r\n\r\n",
    "HTTP/1.1 100 Continue\r\n\r\n",
    "HTTP/1.1 200 OK\r\nTransfer-Encoding: chunked\r\n\r\n3\r\nabc\r\n2;x=y\r\nde\r\n0\r\nX: y\r\n\r\n",
    "HTTP/1.1 200 OK\r\nTransfer-Encoding: chunked\r\n\r\n3\r\nabc\r\n0\r\n\r\nmore",
    "HTTP/1.1 200 OK\r\nTransfer-Encoding: chunked\r\n\r\n3\r\nabc\r\n",
    "HTTP/1.1 200 OK\r\nTransfer-Encoding: chunked\r\n\r\n3\r\nabcd\r\n",
    "HTTP/1.1 200 OK\r\nTransfer-Encoding: chunked\r\n\r\n100001\r\n",
    "HTTP/1.1 200 OK\r\nTransfer-Encoding: gzip\r\n\r\n",
    "HTTP/1.0 200 OK\r\n\r\nup to the end",
    "HTTP/1.0 200 OK\r\n\r\n",
    "HTTP/1.1 200 OK\r\nContent-Length: 3\r\n\r\nab",
    "HTTP/1.1 200 OK\r\nContent-Length: 3\r\n\r\nabcd",
    "HTTP/1.1 200 OK\r\nContent-Length: 1048577\r\n\r\n",
    "HTTP/1.1 200 OK\r\nContent-Length: 3\r\nContent-Length: 3\r\n\r\nabc",
    "HTTP/1.1 204 No Content\r\nContent-Length: 3\r\n\r\n",
    "HTTP/1.1 204 No Content\r\n\r\nabc",
    "HTTP/1.1 304 Not Modified\r\nTransfer-Encoding: chunked\r\n\r\n",
    "HTTP/1.1 204 No Content\r\n\r\nHTTP/1.1 204 No Content\r\n\r\n",
    "HTTP/1.1 20",
    "",
    "FTP/1.1 200 OK\r\n\r\n",
];

/// What an answer is, in a line: its status, its Location where it has one, and its body.
fn told(alloc: Global, heard: &Heard) -> Result<String> {
    let location = match heard.location() {
        Some(line) => str::from_utf8(line)?,
        None => "-",
    };
    let text = format!(in alloc;
        "{} {location} {:?}",
        heard.status(),
        str::from_utf8(heard.body())?
    )?;
    Ok(text)
}

/// What comes of reading an answer, in a line.
fn outcome(alloc: Global, read: Result<Option<Heard>, ResponseFault>) -> Result<String> {
    match read {
        Ok(Some(heard)) => told(alloc, &heard),
        Ok(None) => Ok(format!(in alloc; "not whole")?),
        Err(fault) => Ok(format!(in alloc; "{:?}", fault)?),
    }
}

/// Prints what each text is: while its connection goes on, and where it ended.
pub fn read_texts(rt: &(impl Print + AllocGlobal)) -> Result<()> {
    let alloc = rt.alloc();
    for text in TEXTS {
        let open = outcome(alloc, read_response(alloc, text.as_bytes()))?;
        let ended = outcome(alloc, read_ended_response(alloc, text.as_bytes()))?;
        println!(rt; "{:?}", text)?;
        println!(rt; "  open: {open}; ended: {ended}")?;
    }
    Ok(())
}

/// The limits of the exchanges.
const LIMITS: Exchange = Exchange {
    silence: 500,
    whole: 2_000,
};

/// Prints what comes of one exchange, in which a stopwatch goes on by `step` at each look.
fn one_exchange(
    rt: &(impl Print + AllocGlobal),
    name: &str,
    mut peer: MemConnection,
    most: usize,
    step: u64,
) -> Result<()> {
    let alloc = rt.alloc();
    let mut watch = StepWatch::of(0, step);
    let mut reply = HttpReply::new(alloc)?;
    let mut room = Room::new(alloc, most)?;
    let done = exchange(
        &mut peer,
        &mut watch,
        &mut reply,
        b"GET / HTTP/1.1\r\n\r\n",
        &mut room,
        LIMITS,
    );
    println!(rt;
        "{name}: {:?}, {} bytes out, {} in",
        done,
        peer.out().len(),
        room.bytes.len()
    )?;
    Ok(())
}

/// An answer without a body.
const NONE: &str = "HTTP/1.1 204 No Content\r\n\r\n";

/// Exchanges that succeed, and those whose bytes are no answer.
pub fn exchange_texts(rt: &(impl Print + AllocGlobal)) -> Result<()> {
    let alloc = rt.alloc();
    one_exchange(rt, "whole", connection(alloc, &[NONE], 100)?, 1_000, 1)?;
    one_exchange(rt, "byte by byte", in_pieces(alloc, NONE, 1)?, 1_000, 1)?;
    one_exchange(
        rt,
        "up to the end",
        connection(alloc, &["HTTP/1.0 200 OK\r\n\r\nab"], 100)?,
        1_000,
        1,
    )?;
    one_exchange(
        rt,
        "two answers at once",
        in_pieces(alloc, "HTTP/1.1 204 a\r\n\r\nHTTP/1.1 204 b\r\n\r\n", 100)?,
        1_000,
        1,
    )?;
    one_exchange(
        rt,
        "cut short",
        connection(
            alloc,
            &["HTTP/1.1 200 OK\r\nContent-Length: 3\r\n\r\nab"],
            100,
        )?,
        1_000,
        1,
    )?;
    one_exchange(
        rt,
        "no answer",
        connection(alloc, &["FTP/1.1 200 OK\r\n\r\n"], 100)?,
        1_000,
        1,
    )
}

/// Exchanges in which each limit is met.
pub fn exchange_limits(rt: &(impl Print + AllocGlobal)) -> Result<()> {
    let alloc = rt.alloc();
    one_exchange(
        rt,
        "silent",
        connection(alloc, &["HTTP/1.1 2", ""], 100)?,
        1_000,
        1,
    )?;
    one_exchange(
        rt,
        "too long",
        connection(
            alloc,
            &["HTTP/1.1 200 OK\r\nContent-Length: 30\r\n\r\n", "0123"],
            100,
        )?,
        20,
        1,
    )?;
    one_exchange(
        rt,
        "a byte each 400 ms",
        in_pieces(alloc, NONE, 1)?,
        1_000,
        400,
    )?;
    one_exchange(
        rt,
        "takes nothing",
        connection(alloc, &[NONE], 0)?,
        1_000,
        1,
    )?;
    one_exchange(
        rt,
        "takes a byte each 199 ms",
        in_pieces(alloc, NONE, 1)?,
        1_000,
        199,
    )
}
