//! One connection: its lines are answered in turn.

use crate::jobs::VimJobs;
use std::alloc::{AllocError, Global};
use std::io::{BufRead, BufReader, ErrorKind, Read, Write};
use vim_wire::{LINE_BYTES, VimCall, VimFault, read_call, reply_line};
use vnfm_base::Bytes;

/// Why a connection was over.
#[derive(Clone, Copy, PartialEq, Eq, Debug)]
pub enum Served {
    /// Its bytes ended, or it had as many lines as are answered on one.
    Ended,
    /// A line was no call, or it was cut short.
    NoCall,
    /// A read or a write failed.
    Failed,
    /// There was no memory.
    Memory,
}

/// Lines that are answered on one connection.
pub const LINES: u32 = u32::MAX;

/// Answers the lines that come in, each before the next one is read, until they end, one is no call, or a read or a
/// write fails.
///
/// A reply is written as soon as its call was read whole. No more than the longest line is held.
pub fn serve<R: Read + Drop, W: Write>(
    alloc: Global,
    jobs: &mut VimJobs,
    input: R,
    output: &mut W,
) -> Served {
    let Ok(mut lines) = BufReader::new(alloc, input) else {
        return Served::Memory;
    };
    let mut line = Vec::new(alloc);
    for _ in 0..LINES {
        line.clear();
        match lines
            .by_ref()
            .take(LINE_BYTES as u64)
            .read_until(b'\n', &mut line)
        {
            Ok(0) => return Served::Ended,
            Ok(_) => {}
            Err(fault) if fault.kind() == ErrorKind::OutOfMemory => return Served::Memory,
            Err(_) => return Served::Failed,
        }
        if let Some(over) = answer(alloc, jobs, &line, output) {
            return over;
        }
    }
    Served::Ended
}

/// Answers this line, and says why the connection is over, where it is.
fn answer<W: Write>(
    alloc: Global,
    jobs: &mut VimJobs,
    line: &[u8],
    output: &mut W,
) -> Option<Served> {
    let call = match read_call(alloc, line) {
        Ok(call) => call,
        Err(VimFault::NotLine) => return Some(Served::NoCall),
        Err(VimFault::Memory) => return Some(Served::Memory),
    };
    match written(alloc, jobs, &call) {
        Ok(reply) if output.write_all(reply.as_slice()).is_ok() => None,
        Ok(_) => Some(Served::Failed),
        Err(AllocError) => Some(Served::Memory),
    }
}

/// The line of the reply to this call.
fn written(alloc: Global, jobs: &mut VimJobs, call: &VimCall) -> Result<Bytes, AllocError> {
    let reply = jobs.answer(alloc, call)?;
    reply_line(alloc, &reply)
}
