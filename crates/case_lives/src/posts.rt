//! The posts of a life: each is made right before the record that it was made is begun, and tells of an event that the
//! journal has by then.

use crate::records::{FIRST, record_at};
use site_traits::{MemSite, SiteCall};
use std::alloc::{AllocError, Global};

/// The number of the kind of the event that a notice was posted.
const POSTED: u8 = 15;

/// A post of a life, by its record.
#[derive(Clone, Copy)]
pub struct Sent {
    /// The place on the site's record of the call that begins the record of the post.
    pub call: usize,
    /// The number of that record among those of the life, from 0.
    pub record: usize,
    /// The place in the journal, from 1, of the event that the notice tells of.
    pub event: u64,
}

/// The posts that a life of this site recorded, in their order. A record is two writes: itself, and its gate.
pub fn posts_of(alloc: Global, site: &MemSite) -> Result<Vec<Sent>, AllocError> {
    let mut posts = Vec::new(alloc);
    let mut writes: usize = 0;
    for call in 0..site.moment() {
        if let SiteCall::Wrote { at } = site.call(call) {
            let record = writes / 2;
            if let Some(event) = told_at(site.file(), writes, at) {
                posts.push(Sent {
                    call,
                    record,
                    event,
                })?;
            }
            writes = writes.saturating_add(1);
        }
    }
    Ok(posts)
}

/// The place of the event that was told of by the post of which the record is begun by a write of this number, from 0,
/// at this place of the file; none where it begins no record, or another.
fn told_at(file: &[u8], write: usize, at: u64) -> Option<u64> {
    if write % 2 != 0 {
        return None;
    }
    let record = file.get(usize::try_from(at).ok()?..)?;
    match record {
        [_, _, _, _, _, _, _, _, kind, ..] if *kind == POSTED => number_at(record, 25),
        _ => None,
    }
}

/// The number that stands at this place of a record.
fn number_at(record: &[u8], place: usize) -> Option<u64> {
    match record.get(place..)? {
        [a, b, c, d, e, f, g, h, ..] => {
            Some(u64::from_be_bytes([*a, *b, *c, *d, *e, *f, *g, *h]))
        }
        _ => None,
    }
}

/// How many of these posts were made until this call on the site's record; the post before a call was made by then.
pub fn made_until(posts: &[Sent], call: usize) -> usize {
    let mut count: usize = 0;
    for post in posts {
        if post.call <= call {
            count = count.saturating_add(1);
        }
    }
    count
}

/// How many of these posts are recorded by so many records of their life.
pub fn recorded_by(posts: &[Sent], records: usize) -> usize {
    let mut count: usize = 0;
    for post in posts {
        if post.record < records {
            count = count.saturating_add(1);
        }
    }
    count
}

/// Whether each of the first so many posts tells of one of the first so many events of the journal.
pub fn tell_of_these(posts: &[Sent], count: usize, events: usize) -> bool {
    for post in posts.get(..count).unwrap_or(posts) {
        if post.event == 0 || post.event > events as u64 {
            return false;
        }
    }
    true
}

/// How many records a file has, up to its first closed gate.
pub fn records_in(file: &[u8]) -> usize {
    let mut here = FIRST;
    let mut count: usize = 0;
    for _ in 0..file.len() {
        match record_at(file, here) {
            Some(found) => here = found.behind,
            None => return count,
        }
        count = count.saturating_add(1);
    }
    count
}

/// The header of a file and its first so many records; all where it has fewer.
pub fn first_records(file: &[u8], count: usize) -> &[u8] {
    let mut here = FIRST;
    for _ in 0..count.min(file.len()) {
        match record_at(file, here) {
            Some(found) => here = found.behind,
            None => return file.get(..here.place).unwrap_or(file),
        }
    }
    file.get(..here.place).unwrap_or(file)
}

/// The place behind so many lines of a text; its end where it has fewer.
pub fn behind_lines(text: &[u8], count: usize) -> usize {
    let mut left = count;
    for place in 0..text.len() {
        if left == 0 {
            return place;
        }
        if text[place] == b'\n' {
            left = left.saturating_sub(1);
        }
    }
    text.len()
}

/// Whether a text has this line, which ends with its line feed.
pub fn has_line(text: &[u8], line: &[u8]) -> bool {
    let mut is_begin = true;
    for place in 0..text.len() {
        if is_begin && text[place..].starts_with(line) {
            return true;
        }
        is_begin = text[place] == b'\n';
    }
    false
}
