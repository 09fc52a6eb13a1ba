//! What was wanted and what came, told where they differ first: the line of a text, or the record of a journal.

use crate::events::event_text;
use crate::records::{Between, FIRST, record_at};
use crate::words::CaseFault;
use event_codec::decode;
use std::alloc::{AllocError, AllocFailed, Global};

/// Bytes of a line that are told, from some before the first that differs.
const WINDOW: usize = 100;

/// Bytes that are told before the first that differs.
const BEFORE: usize = 40;

/// What was wanted, and what came in its place.
pub struct Difference {
    /// What was wanted.
    pub wanted: String,
    /// What came.
    pub came: String,
}

impl Drop for Difference {
    // Written out, so that the proof of a caller calls it and doesn't take the value apart at each of its ends.
    fn drop(self) {
        let Difference { wanted: _, came: _ } = self;
    }
}

/// Why an act doesn't go well.
pub enum ActFault {
    /// Something came otherwise than it was wanted.
    Differs(Difference),
    /// The act isn't read, or there is no memory for it.
    Unread(CaseFault),
}

impl Drop for ActFault {
    // Written out, so that the proof of a caller calls it and doesn't take the value apart at each of its ends.
    fn drop(self) {
        match self {
            ActFault::Differs(_) => {}
            ActFault::Unread(_) => {}
        }
    }
}

impl From<CaseFault> for ActFault {
    fn from(fault: CaseFault) -> ActFault {
        ActFault::Unread(fault)
    }
}

impl From<AllocError> for ActFault {
    fn from(_: AllocError) -> ActFault {
        ActFault::Unread(CaseFault::Memory)
    }
}

impl<T: Drop> From<AllocFailed<T>> for ActFault {
    fn from(_: AllocFailed<T>) -> ActFault {
        ActFault::Unread(CaseFault::Memory)
    }
}

/// This was wanted, and that came.
pub fn differs(wanted: String, came: String) -> ActFault {
    ActFault::Differs(Difference { wanted, came })
}

/// These words are the same, or both are told.
pub fn same_word(alloc: Global, wanted: &str, came: &str) -> Result<(), ActFault> {
    if wanted == came {
        return Ok(());
    }
    Err(differs(
        quoted(alloc, wanted.as_bytes())?,
        quoted(alloc, came.as_bytes())?,
    ))
}

/// These texts are the same, or the first lines that differ are told, each from a little before its first byte that
/// does.
pub fn same_text(alloc: Global, wanted: &[u8], came: &[u8]) -> Result<(), ActFault> {
    if wanted == came {
        return Ok(());
    }
    let place = first_difference(wanted, came);
    Err(differs(
        line_text(alloc, wanted, place)?,
        line_text(alloc, came, place)?,
    ))
}

/// These journals are the same, or the first records that differ are told by their events.
pub fn same_file(alloc: Global, wanted: &[u8], came: &[u8]) -> Result<(), ActFault> {
    if wanted == came {
        return Ok(());
    }
    let place = first_difference(wanted, came);
    let (number, here) = record_around(wanted, place);
    Err(differs(
        record_text(alloc, wanted, number, here, place)?,
        record_text(alloc, came, number, here, place)?,
    ))
}

/// The place where these bytes differ first; the end of one that the other begins with.
fn first_difference(wanted: &[u8], came: &[u8]) -> usize {
    let least = wanted.len().min(came.len());
    for place in 0..least {
        if wanted[place] != came[place] {
            return place;
        }
    }
    least
}

/// The number of the line that has this place, from 1, and where the line begins.
fn line_around(text: &[u8], place: usize) -> (usize, usize) {
    let mut number: usize = 1;
    let mut begin = 0;
    for at in 0..place.min(text.len()) {
        if text[at] == b'\n' {
            number = number.saturating_add(1);
            begin = at.saturating_add(1);
        }
    }
    (number, begin)
}

/// The place behind the line that has this place.
fn line_end(text: &[u8], place: usize) -> usize {
    for at in place..text.len() {
        if text[at] == b'\n' {
            return at.saturating_add(1);
        }
    }
    text.len()
}

/// The line that has this place, by its number: what stands of it around the place.
fn line_text(alloc: Global, text: &[u8], place: usize) -> Result<String, AllocError> {
    let (number, begin) = line_around(text, place);
    let from = begin.max(place.saturating_sub(BEFORE));
    let end = line_end(text, place).min(from.saturating_add(WINDOW));
    let part = quoted(alloc, text.get(from..end).unwrap_or(&[]))?;
    if from > begin {
        let skipped = from.saturating_sub(begin);
        format!(in alloc; "line {number} from its byte {skipped} on: {part}")
    } else {
        format!(in alloc; "line {number}: {part}")
    }
}

/// The number, from 1, of the record of this journal that has this place, and where it begins; of what stands behind
/// its records, where none has.
fn record_around(file: &[u8], place: usize) -> (usize, Between) {
    let mut here = FIRST;
    let mut number: usize = 1;
    for _ in 0..file.len() {
        match record_at(file, here) {
            Some(found) if found.behind.place <= place => {
                here = found.behind;
                number = number.saturating_add(1);
            }
            _ => return (number, here),
        }
    }
    (number, here)
}

/// The record of this number that begins here, by its event; else the bytes around this place.
fn record_text(
    alloc: Global,
    file: &[u8],
    number: usize,
    here: Between,
    place: usize,
) -> Result<String, CaseFault> {
    if place >= FIRST.place {
        if let Some(text) = event_at(alloc, file, here)? {
            return Ok(format!(in alloc; "record {number}, at byte {place}: {text}")?);
        }
    }
    let end = file.len().min(place.saturating_add(WINDOW));
    let part = quoted(alloc, file.get(place..end).unwrap_or(&[]))?;
    Ok(format!(in alloc; "no record {number}, from byte {place} on: {part}")?)
}

/// What the event of the record says that begins here; none where there is no record or no event.
fn event_at(alloc: Global, file: &[u8], here: Between) -> Result<Option<String>, CaseFault> {
    let Some(found) = record_at(file, here) else {
        return Ok(None);
    };
    let content = file.get(found.begin..found.behind.place);
    match decode(alloc, content.unwrap_or(&[])) {
        Ok(event) => Ok(Some(event_text(alloc, &event)?)),
        Err(_) => Ok(None),
    }
}

/// These bytes between quotes, those that no person reads as `\x` and their digits.
pub fn quoted(alloc: Global, bytes: &[u8]) -> Result<String, AllocError> {
    let mut text = String::from_str(alloc, "\"")?;
    for byte in bytes {
        put_readable(&mut text, *byte)?;
    }
    text.push_str("\"")?;
    Ok(text)
}

/// Puts a byte as a person reads it.
fn put_readable(text: &mut String, byte: u8) -> Result<(), AllocError> {
    match byte {
        b'\n' => text.push_str("\\n"),
        b'\r' => text.push_str("\\r"),
        b'"' => text.push_str("\\\""),
        b'\\' => text.push_str("\\\\"),
        32..=126 => text.push(char::from(byte)),
        _ => put_digits(text, byte),
    }
}

/// Puts a byte by its two digits.
fn put_digits(text: &mut String, byte: u8) -> Result<(), AllocError> {
    text.push_str("\\x")?;
    text.push(digit(byte / 16))?;
    text.push(digit(byte % 16))
}

/// The digit of a number below 16.
fn digit(number: u8) -> char {
    char::from_digit(u32::from(number), 16).unwrap_or('?')
}
