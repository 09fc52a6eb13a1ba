//! The records of one instantiation of the edge router, spelled by hand, and where a file's records end.

use lcm_events::{CancelMode, OpState};
use std::alloc::{AllocError, Global};

/// What is recorded of an attempt.
#[derive(Clone, Copy, PartialEq)]
pub enum At {
    /// It is about to begin.
    Intent,
    /// The call that was to begin it failed.
    CallFailed,
    /// It was done, by the job at this place of the list.
    Done(u16),
    /// It was broken with this code.
    Broken(u32),
    /// It was aborted.
    Aborted,
    /// The infrastructure never got it.
    NotBegun,
}

/// A record of occurrence 1.
#[derive(Clone, Copy)]
pub enum Step {
    /// The operation was asked for.
    Asked,
    /// It was granted, all at `vim1`.
    Granted,
    /// It moved to this state.
    Moved(OpState),
    /// Of the attempt of this number at making this change.
    Forward(u16, u32, At),
    /// Of the attempt of this number at undoing this change.
    Undo(u16, u32, At),
    /// A cancel was asked for.
    Cancelled(CancelMode),
}

/// The moment of each record, the clock's 1,700,000,000,000, and behind it the number of occurrence 1.
const ABOUT: [u8; 16] = [0, 0, 1, 139, 207, 229, 104, 0, 0, 0, 0, 0, 0, 0, 0, 1];

/// What is asked behind the number of the occurrence: instance 1, by the orchestrator, in the flavour `simple` at the
/// default level; 2 links, 3 storages, 3 machines and 5 ports are made.
const PLAN: &[u8] =
    b"\0\0\0\0\0\0\0\x01\0\x01\x06simple\0\0\x0d\0\0\0\0\0\xff\xff\0\0\0\0\0\0\0\0\x01\xff\xff\0\0\0\0\x01\0\x01\0\0\0\0\0\0\0\x01\x01\0\x01\0\0\0\0\0\0\0\x02\x01\0\x01\0\x01\0\x01\0\0\0\x01\x02\0\x02\0\0\0\0\0\0\0\x01\x02\0\x02\0\0\0\0\0\0\0\x02\x02\0\x02\0\0\0\x01\0\0\0\x01\x03\0\x03\0\0\0\0\0\0\0\x01\x03\0\x03\0\x01\0\0\0\0\0\x01\x03\0\x03\0\0\0\0\0\0\0\x02\x03\0\x03\0\x01\0\0\0\0\0\x02\x03\0\x03\0\x02\0\x01\0\0\0\x01";

/// What is granted behind the number of the occurrence: the grant `g1`, with one place for all thirteen changes.
const GRANT: &[u8] = b"\x02g1\x01\x04vim1\0\0\x0d\0\0\0\0\0\0\0\0\0\0\0\0\0";

/// The number of a state in a record.
fn number_of(state: OpState) -> u8 {
    match state {
        OpState::Starting => 0,
        OpState::Processing => 1,
        OpState::Completed => 2,
        OpState::FailedTemp => 3,
        OpState::Failed => 4,
        OpState::RollingBack => 5,
        OpState::RolledBack => 6,
    }
}

/// The number of a mode of cancel in a record.
fn number_of_mode(mode: CancelMode) -> u8 {
    match mode {
        CancelMode::Graceful => 0,
        CancelMode::Forceful => 1,
    }
}

/// The number of the kind of this record of an attempt.
fn kind_of_attempt(at: At) -> u8 {
    match at {
        At::Intent => 8,
        At::CallFailed => 9,
        At::Done(_) | At::Broken(_) | At::Aborted | At::NotBegun => 10,
    }
}

/// The number of the kind of this step's record.
fn kind_of(step: Step) -> u8 {
    match step {
        Step::Asked => 4,
        Step::Granted => 6,
        Step::Moved(_) => 11,
        Step::Forward(_, _, at) | Step::Undo(_, _, at) => kind_of_attempt(at),
        Step::Cancelled(_) => 12,
    }
}

/// These bytes, and those behind them.
fn joined(alloc: Global, front: &[u8], behind: &[u8]) -> Result<Vec<u8>, AllocError> {
    let mut whole = front.to_vec(alloc)?;
    whole.extend_from_slice(behind)?;
    Ok(whole)
}

/// How a done attempt ended, by the job at this place.
fn done(alloc: Global, job: u16) -> Result<Vec<u8>, AllocError> {
    let name = format!(in alloc; "r{job}")?;
    let length = u8::try_from(name.len()).unwrap_or(0);
    joined(alloc, &[0, length], name.as_bytes())
}

/// What stands behind an attempt in this record of it.
fn end_of(alloc: Global, at: At) -> Result<Vec<u8>, AllocError> {
    match at {
        At::Intent | At::CallFailed => Ok(Vec::new(alloc)),
        At::Done(job) => done(alloc, job),
        At::Broken(code) => joined(alloc, &[1], &code.to_be_bytes()),
        At::Aborted => [2].to_vec(alloc),
        At::NotBegun => [3].to_vec(alloc),
    }
}

/// What stands behind the number of the occurrence in this record of this attempt at this change in the way of this
/// number.
fn attempt(
    alloc: Global,
    change: u16,
    attempt: u32,
    way: u8,
    at: At,
) -> Result<Vec<u8>, AllocError> {
    let ([a, b], [c, d, e, f]) = (change.to_be_bytes(), attempt.to_be_bytes());
    let end = end_of(alloc, at)?;
    joined(alloc, &[a, b, c, d, e, f, way], &end)
}

/// What stands behind the moment of a record and the number of the occurrence.
fn fields_of(alloc: Global, step: Step) -> Result<Vec<u8>, AllocError> {
    match step {
        Step::Asked => PLAN.to_vec(alloc),
        Step::Granted => GRANT.to_vec(alloc),
        Step::Moved(to) => [number_of(to)].to_vec(alloc),
        Step::Forward(change, number, at) => attempt(alloc, change, number, 0, at),
        Step::Undo(change, number, at) => attempt(alloc, change, number, 1, at),
        Step::Cancelled(mode) => [number_of_mode(mode)].to_vec(alloc),
    }
}

/// Puts the record of this step, in a batch of its own.
fn put(alloc: Global, file: &mut Vec<u8>, step: Step) -> Result<(), AllocError> {
    let fields = fields_of(alloc, step)?;
    put_record(file, kind_of(step), &fields)
}

/// Puts the record of the kind of this number with these fields, in a batch of its own: behind its open gate stand the
/// lengths of its content and of the record.
fn put_record(file: &mut Vec<u8>, kind: u8, fields: &[u8]) -> Result<(), AllocError> {
    let length = u32::try_from(fields.len()).unwrap_or(0).saturating_add(17);
    let [a, b, c, d] = length.saturating_add(4).to_be_bytes();
    file.extend_from_slice(&[1, a, b, c, d])?;
    file.extend_from_slice(&length.to_be_bytes())?;
    file.push(kind)?;
    file.extend_from_slice(&ABOUT)?;
    file.extend_from_slice(fields)
}

/// The records of this file, from its header up to its first closed gate, and these steps behind them.
pub fn front_with(alloc: Global, file: &[u8], steps: &[Step]) -> Result<Vec<u8>, AllocError> {
    let mut whole = front_of(file).to_vec(alloc)?;
    for step in steps {
        put(alloc, &mut whole, *step)?;
    }
    Ok(whole)
}

/// The journal with the records of this file and these steps behind them.
pub fn journal_with(alloc: Global, file: &[u8], steps: &[Step]) -> Result<Vec<u8>, AllocError> {
    let mut whole = front_with(alloc, file, steps)?;
    whole.push(0)?;
    Ok(whole)
}

/// A place of a file between its records, and how many bytes of the batch at hand stand behind it.
#[derive(Clone, Copy)]
pub struct Between {
    /// The place: that of a gate, or of the length of a record that is not the first of its batch.
    pub place: usize,
    /// The bytes of the batch that are left; 0 at a gate.
    pub left: usize,
}

/// The place of the first gate.
pub const FIRST: Between = Between { place: 32, left: 0 };

/// A record of a file.
#[derive(Clone, Copy)]
pub struct Found {
    /// Where its bytes begin, behind its length.
    pub begin: usize,
    /// What is behind it.
    pub behind: Between,
}

/// The number of four bytes at this place of a file.
fn length_at(file: &[u8], place: usize) -> Option<usize> {
    match file.get(place..)? {
        [a, b, c, d, ..] => usize::try_from(u32::from_be_bytes([*a, *b, *c, *d])).ok(),
        _ => None,
    }
}

/// The place behind the head of the batch at this gate, where it is open, and the bytes of its content.
fn content_at(file: &[u8], gate: usize) -> Option<Between> {
    match file.get(gate..)? {
        [1, ..] => Some(Between {
            place: gate.saturating_add(5),
            left: length_at(file, gate.saturating_add(1))?,
        }),
        _ => None,
    }
}

/// The record that stands here: the next one of the batch at hand, or the first one of the batch at an open gate.
pub fn record_at(file: &[u8], here: Between) -> Option<Found> {
    let at = if here.left > 0 {
        here
    } else {
        content_at(file, here.place)?
    };
    let begin = at.place.saturating_add(4);
    let bytes = length_at(file, at.place)?;
    let behind = Between {
        place: begin.saturating_add(bytes),
        left: at.left.saturating_sub(4).saturating_sub(bytes),
    };
    Some(Found { begin, behind })
}

/// The file up to its first closed gate.
pub fn front_of(file: &[u8]) -> &[u8] {
    let mut here = FIRST;
    for _ in 0..file.len() {
        match record_at(file, here) {
            Some(found) => here = found.behind,
            None => return file.get(..here.place).unwrap_or(file),
        }
    }
    file
}
