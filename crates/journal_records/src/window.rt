// Bytes of a file, from one place on, as they were read.
ghost use Rattle.std.specs.Prelude.{◌≡◌, ◌≤◌, ◌+◌, ◌-◌, ◌++◌, [], IfOk, OnOk, OnErr, length, take, drop};
ghost use Rattle.site_traits.specs.Counts.{DiskCause};
ghost use Rattle.site_traits.specs.Site.{Reads};
ghost use Rattle.journal_records.specs.Reading.{none_seen};

use crate::limits::{BLOCK, MAX_BATCH};
use site_traits::{DiskFailed, Site};
use std::alloc::{AllocError, Global};
use std::marker::Model;

/// How many bytes are held at most: the longest batch but one byte, and a block.
pub const ROOM: usize = 5 + MAX_BATCH + BLOCK;

/// Bytes of a file, from one place on, as they were read, and in front of them those that were passed since. A contract
/// sees both.
#[derive(Drop)]
pub struct Window {
    buffer: Vec<u8>,
    at: usize,
    end: usize,
}

impl Model for Window {
    ghost use Rattle.std.specs.Prelude.{◌≡◌, ◌≤◌, ◌-◌, length, take, drop};
    ghost use Rattle.journal_records.specs.Reading.{Seen};

    ghost Value = { Seen };

    ghost view = { λ w. record {
      passed = take w.at w.buffer.items;
      ahead = take (w.end - w.at) (drop w.at w.buffer.items);
    } };

    ghost invariant = { λ w. (length w.buffer.items ≡ 196613) × (w.at ≤ w.end) × (w.end ≤ 196613) };
}

impl Window {
    /// A window that holds nothing, with room for 196,613 bytes.
    pub fn new(alloc: Global) -> Result<Window, AllocError>
        ensures { IfOk result (λ w. w ≡ none_seen) }
    {
        let buffer = vec![in alloc; 0; ROOM]?;
        Ok(Window {
            buffer,
            at: 0,
            end: 0,
        })
    }

    /// Holds nothing any more.
    pub fn clear(&mut self)
        ensures { self.new ≡ none_seen }
    {
        self.at = 0;
        self.end = 0;
    }

    /// The bytes that weren't passed.
    pub fn as_slice(&self) -> &[u8]
        ensures { result.now ≡ self.now.ahead }
    {
        &self.buffer[self.at..self.end]
    }

    /// How many these are.
    pub fn len(&self) -> usize
        ensures value { result ≡ length self.now.ahead }
        ensures few { length self.now.ahead ≤ 196613 }
    {
        self.end - self.at
    }

    /// Passes so many bytes.
    pub fn pass(&mut self, n: usize)
        requires { n ≤ length self.old.ahead }
        ensures { self.new ≡ record {
          passed = self.old.passed ++ take n self.old.ahead;
          ahead = drop n self.old.ahead;
        } }
    {
        self.at += n;
    }

    /// The last so many bytes that were passed.
    pub fn last_passed(&self, n: usize) -> &[u8]
        requires { n ≤ length self.now.passed }
        ensures { result.now ≡ drop (length self.now.passed - n) self.now.passed }
    {
        &self.buffer[self.at - n..self.at]
    }

    /// Reads so many bytes more, which stand at this place of the file. What wasn't passed moves to the front of the
    /// buffer first, over what was.
    pub fn grow<S: Site>(&mut self, site: &mut S, place: u64, more: usize) -> Result<(), DiskFailed>
        requires room { length self.old.ahead + more ≤ 196613 }
        requires within { S.tells → place + more ≤ length (S.state site.old).image }
        ensures bytes { S.tells → OnOk result (self.new.ahead
            ≡ self.old.ahead ++ take more (drop place (S.state site.old).image)) }
        ensures length { OnOk result (length self.new.ahead ≡ length self.old.ahead + more) }
        ensures kept { OnErr result (self.new.ahead ≡ self.old.ahead) }
        ensures told { S.tells → Reads (S.state site.old) (S.state site.new) }
        ensures cause { DiskCause (S.counts site.old) (S.counts site.new) result }
    {
        let held = self.end - self.at;
        to_front(&mut self.buffer, self.at, self.end);
        self.at = 0;
        self.end = held;
        read_behind(site, place, &mut self.buffer, held, more)?;
        self.end = held + more;
        Ok(())
    }
}

// Moves these bytes of a buffer to its front.
fn to_front(buffer: &mut [u8], at: usize, end: usize)
    requires order { at ≤ end }
    requires within { end ≤ length buffer.old }
    ensures bytes { take (end - at) buffer.new ≡ take (end - at) (drop at buffer.old) }
    ensures length { length buffer.new ≡ length buffer.old }
{
    if at > 0 {
        buffer.copy_within(at..end, 0);
    }
}

// Reads so many bytes of the file from this place on into a buffer, behind those that it holds.
fn read_behind<S: Site>(
    site: &mut S,
    place: u64,
    buffer: &mut [u8],
    held: usize,
    more: usize,
) -> Result<(), DiskFailed>
    requires room { held + more ≤ length buffer.old }
    requires within { S.tells → place + more ≤ length (S.state site.old).image }
    ensures bytes { S.tells → OnOk result (take (held + more) buffer.new
        ≡ take held buffer.old ++ take more (drop place (S.state site.old).image)) }
    ensures kept { take held buffer.new ≡ take held buffer.old }
    ensures length { length buffer.new ≡ length buffer.old }
    ensures told { S.tells → Reads (S.state site.old) (S.state site.new) }
    ensures cause { DiskCause (S.counts site.old) (S.counts site.new) result }
{
    site.read_at(place, &mut buffer[held..held + more])
}
