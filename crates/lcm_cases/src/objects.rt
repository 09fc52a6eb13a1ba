//! The objects in memory that a run of a command is made over, and what it did to them.

use crate::recorder::PostRecorder;
use case_lives::plain_site;
use lcm_events::Role;
use lcm_mouth::Mouth;
use site_traits::{
    DoorPlan, MemConn, MemDoor, MemOrchestrator, MemSink, MemSite, Orchestrator, PostPlan, SetClock,
};
use std::alloc::{AllocError, Global};
use vnfm_base::{Bytes, Text};
use vnfm_cli::run;

/// What a run did.
pub struct Ran {
    /// The program's status.
    pub status: u8,
    /// What the last connection was told.
    pub told: Vec<u8>,
    /// What was printed.
    pub printed: Vec<u8>,
    /// Whether the last connection was hung up.
    pub ended: bool,
    /// How often the clock was read.
    pub clock: u64,
    /// How many connections came that were all told the same and hung up; 0 where they weren't.
    pub alike: usize,
    /// The bodies that the orchestrator with planned answers was asked with, each with a line feed behind it.
    pub bodies: Vec<u8>,
    /// The locations that it was polled at, each with a line feed behind it.
    pub locations: Vec<u8>,
    /// What was posted, each in a line: the status, or `fail`, the callback and the body.
    pub posts: Vec<u8>,
}

impl Drop for Ran {
    // Written out, so that the proof of a caller calls it and doesn't take the value apart at each of its ends.
    fn drop(self) {
        let Ran {
            status: _,
            told: _,
            printed: _,
            ended: _,
            clock: _,
            alike: _,
            bodies: _,
            locations: _,
            posts: _,
        } = self;
    }
}

impl Ran {
    /// Before any run.
    pub fn none(alloc: Global) -> Ran {
        Ran {
            status: 0,
            told: Vec::new(alloc),
            printed: Vec::new(alloc),
            ended: false,
            clock: 0,
            alike: 0,
            bodies: Vec::new(alloc),
            locations: Vec::new(alloc),
            posts: Vec::new(alloc),
        }
    }
}

/// The objects of a run, but for its sites and its orchestrator.
struct Objects {
    mouth: Mouth<MemDoor>,
    courier: PostRecorder,
    clock: SetClock,
    sink: MemSink,
}

impl Drop for Objects {
    // Written out, so that the proof of a caller calls it and doesn't take the value apart at each of its ends.
    fn drop(self) {
        let Objects {
            mouth: _,
            courier: _,
            clock: _,
            sink: _,
        } = self;
    }
}

/// The objects with this door, a courier whose posts are answered so, a sink of which this put fails, and a clock that
/// gives this.
fn objects_of(
    alloc: Global,
    door: Vec<DoorPlan>,
    receipts: Vec<PostPlan>,
    failing_put: Option<u64>,
    now: u64,
) -> Result<Objects, AllocError> {
    let clock = clock_at(alloc, now)?;
    let sink = MemSink::new(alloc, failing_put)?;
    let courier = PostRecorder::new(alloc, receipts)?;
    let mouth = mouth_at(alloc, door)?;
    Ok(Objects {
        mouth,
        courier,
        clock,
        sink,
    })
}

/// A mouth with this door.
pub fn mouth_at(alloc: Global, door: Vec<DoorPlan>) -> Result<Mouth<MemDoor>, AllocError> {
    Mouth::new(alloc, MemDoor::new(alloc, door)?)
}

/// A clock that always gives this.
pub fn clock_at(alloc: Global, now: u64) -> Result<SetClock, AllocError> {
    SetClock::new(alloc, vec![in alloc; now]?)
}

/// What a run that ended with this status did to its objects.
fn report(alloc: Global, status: u8, objects: &Objects) -> Result<Ran, AllocError> {
    let door = objects.mouth.door();
    Ok(Ran {
        status,
        told: door.conn().out().to_vec(alloc)?,
        printed: objects.sink.bytes().to_vec(alloc)?,
        ended: door.conn().is_hung_up(),
        clock: objects.clock.calls(),
        alike: alike(door),
        bodies: Vec::new(alloc),
        locations: Vec::new(alloc),
        posts: objects.courier.posts.to_vec(alloc)?,
    })
}

/// How many connections came to the door, where each was told what the last was and was hung up; 0 where one wasn't.
fn alike(door: &MemDoor) -> usize {
    let (told, past) = (door.conn().out(), door.past());
    // The first of the past ones is no connection, but stood there before any came.
    for place in 1..past.len() {
        if !has_heard(&past[place], told) {
            return 0;
        }
    }
    if has_heard(door.conn(), told) {
        return past.len();
    }
    0
}

/// Whether the connection was told this and hung up.
fn has_heard(conn: &MemConn, told: &[u8]) -> bool {
    conn.is_hung_up() && conn.out() == told
}

/// The moment that the clock gives where no act says so.
pub const NOW: u64 = 1_700_000_000_000;

/// Runs these words over this site and this spare one, this door, this orchestrator, a courier whose posts are answered
/// so, a sink of which this put fails, and a clock that gives this.
pub fn run_over<O: Orchestrator>(
    alloc: Global,
    words: &[Text],
    site: &mut MemSite,
    spare: &mut MemSite,
    door: Vec<DoorPlan>,
    orchestrator: &mut O,
    receipts: Vec<PostPlan>,
    failing_put: Option<u64>,
    now: u64,
) -> Result<Ran, AllocError> {
    let mut objects = objects_of(alloc, door, receipts, failing_put, now)?;
    let status = run(
        alloc,
        words,
        site,
        spare,
        &mut objects.mouth,
        orchestrator,
        &mut objects.courier,
        &mut objects.clock,
        &mut objects.sink,
    );
    report(alloc, status, &objects)
}

/// These words.
pub fn words_of(alloc: Global, texts: &[&str]) -> Result<Vec<Text>, AllocError> {
    let mut words = Vec::new(alloc);
    for text in texts {
        put_word(alloc, &mut words, text)?;
    }
    Ok(words)
}

/// Puts this word.
pub fn put_word(alloc: Global, words: &mut Vec<Text>, word: &str) -> Result<(), AllocError> {
    words.push(Text::of_string(String::from_str(alloc, word)?))?;
    Ok(())
}

/// Puts a piece with these bytes.
pub fn put_piece(alloc: Global, pieces: &mut Vec<Bytes>, piece: &[u8]) -> Result<(), AllocError> {
    pieces.push(Bytes::of(alloc, piece)?)?;
    Ok(())
}

/// The connection with these bytes, in pieces of this size.
pub fn connection(
    alloc: Global,
    bytes: &[u8],
    size: usize,
    failing_read: Option<usize>,
    failing_write: Option<usize>,
) -> Result<DoorPlan, AllocError> {
    let mut pieces = Vec::new(alloc);
    for piece in bytes.chunks(size.max(1)) {
        put_piece(alloc, &mut pieces, piece)?;
    }
    Ok(DoorPlan::Conn {
        role: Role::Orchestrator,
        pieces,
        failing_read,
        failing_write,
    })
}

/// Runs `once` over this site for a connection with these bytes, with an orchestrator that is never reached.
pub fn ask(alloc: Global, site: &mut MemSite, bytes: &[u8]) -> Result<Ran, AllocError> {
    let words = words_of(alloc, &["once", "--journal", "j"])?;
    ask_by(alloc, &words, site, bytes)
}

/// Runs these words over this site for a connection with these bytes, with an orchestrator that is never reached.
fn ask_by(
    alloc: Global,
    words: &[Text],
    site: &mut MemSite,
    bytes: &[u8],
) -> Result<Ran, AllocError> {
    let mut orchestrator = MemOrchestrator::new(alloc, Vec::new(alloc))?;
    let mut spare = plain_site(alloc, &[])?;
    let door = one_of(alloc, connection(alloc, bytes, bytes.len(), None, None)?)?;
    let receipts = Vec::new(alloc);
    run_over(
        alloc,
        words,
        site,
        &mut spare,
        door,
        &mut orchestrator,
        receipts,
        None,
        NOW,
    )
}

/// What comes of a door to which one connection comes.
fn one_of(alloc: Global, plan: DoorPlan) -> Result<Vec<DoorPlan>, AllocError> {
    let mut door = Vec::new(alloc);
    door.push(plan)?;
    Ok(door)
}
