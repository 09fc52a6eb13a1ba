//! Connections and a stopwatch in memory.
ghost use Rattle.std.specs.Prelude.{◌≤◌};

use anyhow::Result;
use net_calls::{Connection, MemConnection, Step, StepWatch, Stopwatch};
use std::alloc::{AllocError, AllocGlobal, Global};
use std::io::Print;
use std::str;

/// A connection on which these bytes come by these steps, and which takes so many bytes at a time.
pub fn connection(
    alloc: Global,
    bytes: &[u8],
    steps: &[Step],
    room: usize,
) -> Result<MemConnection, AllocError> {
    Ok(MemConnection::of(
        bytes.to_vec(alloc)?,
        steps.to_vec(alloc)?,
        room,
        Vec::new(alloc),
    ))
}

/// Prints what reads, writes and looks give.
pub fn print_connections(rt: &(impl Print + AllocGlobal)) -> Result<()> {
    let steps = [
        Step::Piece(3),
        Step::Silence,
        Step::Silence,
        Step::Piece(0),
        Step::Reset,
    ];
    let mut reader = connection(rt.alloc(), b"a request", &steps, 0)?;
    println!(rt; "quiet {}", reader.is_quiet())?;
    print_read(rt, &mut reader)?;
    println!(rt; "quiet {}", reader.is_quiet())?;
    for _ in 0..5 {
        print_read(rt, &mut reader)?;
    }
    println!(rt; "left {}", reader.left().len())?;
    print_write(rt, &mut reader)?;
    let mut writer = connection(rt.alloc(), b"", &[], 4)?;
    print_write(rt, &mut writer)?;
    print_write(rt, &mut writer)?;
    println!(rt;
        "out {:?}, finished {}",
        str::from_utf8(writer.out())?,
        writer.is_finished()
    )?;
    println!(rt;
        "finish {}, finished {}",
        writer.finish().is_ok(),
        writer.is_finished()
    )?;
    let mut watch = StepWatch::of(5, 7);
    println!(rt; "stopwatch {:?}, {:?}", watch.millis(), watch.millis())?;
    Ok(())
}

/// Prints what a read gives.
fn print_read(rt: &impl Print, reader: &mut MemConnection) -> Result<()> {
    let mut room = [0u8; 4];
    match reader.read(&mut room, 1) {
        Ok(count) => println!(rt; "read {:?}", str::from_utf8(&room[..count])?)?,
        Err(fault) => println!(rt; "read {:?}", fault.kind())?,
    }
    Ok(())
}

/// Prints what a write gives.
fn print_write(rt: &impl Print, writer: &mut MemConnection) -> Result<()> {
    match writer.write(b"answer", 1) {
        Ok(count) => println!(rt; "wrote {count}")?,
        Err(fault) => println!(rt; "write {:?}", fault.kind())?,
    }
    Ok(())
}
