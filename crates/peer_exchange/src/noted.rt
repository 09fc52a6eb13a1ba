//! Calls on a peer, told to the door's pulse.
use edge_limits::Pulse;
use std::cell::Cell;

/// Tells that a peer was asked how far it is.
pub fn note_asked(pulse: &Cell<Pulse>) {
    let mut noted = pulse.get();
    noted.asked = true;
    pulse.set(noted);
}

/// Tells that a call on a peer failed.
pub fn note_failed(pulse: &Cell<Pulse>) {
    let mut noted = pulse.get();
    noted.failed = true;
    pulse.set(noted);
}
