//! What calls on peers came to, noted for whoever says when the next round is due.
use edge_limits::Pace;
use grant_desk::{GrantAnswer, read_answer};
use site_traits::{Call, Heard, LookAnswer, PostAnswer};
use std::alloc::{AllocError, Global};
use std::cell::Cell;

/// Something went on.
pub fn note_act(pace: &Cell<Pace>) {
    let mut noted = pace.get();
    noted.went_on = true;
    pace.set(noted);
}

/// A try that is counted was in vain.
pub fn note_vain(pace: &Cell<Pace>) {
    let mut noted = pace.get();
    noted.in_vain = true;
    pace.set(noted);
}

/// Something is waited for.
pub fn note_wait(pace: &Cell<Pace>) {
    let mut noted = pace.get();
    noted.awaited = true;
    pace.set(noted);
}

/// A call on the infrastructure failed.
pub fn note_fault(pace: &Cell<Pace>) {
    let mut noted = pace.get();
    noted.failed = true;
    pace.set(noted);
}

/// The journal was written.
pub fn note_write(pace: &Cell<Pace>) {
    pace.set(pace.get().wrote());
}

/// A grant request (`asked`) or a poll came to this: a decision goes on, one that comes later is waited for, and all
/// else was in vain.
pub fn note_grant(alloc: Global, pace: &Cell<Pace>, asked: bool, call: Call, heard: &Heard) {
    if let Call::Failed = call {
        note_vain(pace);
        return;
    }
    match read_answer(alloc, asked, heard) {
        Ok(GrantAnswer::Granted(_)) | Ok(GrantAnswer::Denied) => note_act(pace),
        Ok(GrantAnswer::Later(_)) => note_wait(pace),
        Ok(GrantAnswer::Trouble) | Err(AllocError) => note_vain(pace),
    }
}

/// A notice was posted: 204 alone takes it.
pub fn note_post(pace: &Cell<Pace>, answer: PostAnswer) {
    let mut noted = pace.get();
    noted.posted = true;
    pace.set(noted);
    match answer {
        PostAnswer::Status(204) => note_act(pace),
        _ => note_vain(pace),
    }
}

/// A job was looked at: one that goes on is waited for, and each other answer lets something go on.
pub fn note_look(pace: &Cell<Pace>, answer: &LookAnswer) {
    match answer {
        LookAnswer::Running => note_wait(pace),
        LookAnswer::Failed => note_fault(pace),
        LookAnswer::Absent | LookAnswer::Done(_) | LookAnswer::Broken(_) | LookAnswer::Aborted => {
            note_act(pace)
        }
    }
}
