// What was heard from a peer, in room that was taken before the call.
ghost use Rattle.std.specs.Prelude.{◌≡◌, ◌≤◌, [], IfOk, IfSome, length, vec_capacity};
ghost use Rattle.std.specs.Option.{option_copied};
ghost use Rattle.vnfm_base.specs.Text.{IsLine};

use std::alloc::{AllocError, Global};
use std::marker::Model;
use vnfm_base::{LINE_MAX, Line};

/// Bytes of the longest body that is heard.
pub const HEARD_MAX: usize = 1_048_576;

/// A peer's answer: its status, its Location where it has one that is a line, and its body.
///
/// All its room is taken by `new`, so that hearing takes no memory. A contract sees it as that answer.
///
/// Source: own rule.
pub struct Heard {
    status: u16,
    located: bool,
    location: Vec<u8>,
    body: Vec<u8>,
}

impl Drop for Heard {
    // Written out, so that the proof of a caller calls it and doesn't take the value apart at each of its ends.
    fn drop(self) {
        let Heard {
            status: _,
            located: _,
            location: _,
            body: _,
        } = self;
    }
}

impl Model for Heard {
    ghost use Rattle.std.specs.Prelude.{◌≤◌, length, if◌then◌else◌, Some, None, vec_capacity};
    ghost use Rattle.site_traits.specs.Answer.{Answer};
    ghost use Rattle.vnfm_base.specs.Text.{IsLine};

    ghost Value = { Answer };

    ghost view = { λ h. record {
      status = h.status;
      location = (if h.located then Some h.location.items else None);
      body = h.body.items;
    } };

    ghost invariant = { λ h. (2048 ≤ vec_capacity h.location) × (1048576 ≤ vec_capacity h.body)
        × (length h.body.items ≤ 1048576) × IsLine h.location.items };
}

impl Heard {
    /// An answer of status 0 with no Location and no body, with room for every other one.
    pub fn new(alloc: Global) -> Result<Heard, AllocError>
        ensures { IfOk result (λ h. (h.status ≡ 0) × (h.location ≡ None) × (h.body ≡ [])) }
    {
        let location = Vec::with_capacity(alloc, LINE_MAX)?;
        let body = Vec::with_capacity(alloc, HEARD_MAX)?;
        Ok(Heard {
            status: 0,
            located: false,
            location,
            body,
        })
    }

    /// Holds this answer in place of what was heard before. It takes no memory.
    pub fn hear(&mut self, status: u16, location: Option<&Line>, body: &[u8])
        requires { length body.now ≤ 1048576 }
        ensures status { self.new.status ≡ status }
        ensures location { self.new.location ≡ option_copied location.entry }
        ensures body { self.new.body ≡ body.now }
    {
        self.status = status;
        self.located = false;
        if let Some(line) = location {
            copy_within_room(&mut self.location, line.as_bytes());
            self.located = true;
        }
        copy_within_room(&mut self.body, body);
    }

    /// The status.
    pub fn status(&self) -> u16
        ensures { result ≡ self.now.status }
    {
        self.status
    }

    /// The bytes of the Location, which are those of a line, where there is one.
    pub fn location(&self) -> Option<&[u8]>
        ensures value { option_copied result ≡ self.now.location }
        ensures line { IfSome self.now.location IsLine }
    {
        if self.located {
            Some(&self.location)
        } else {
            None
        }
    }

    /// The body.
    pub fn body(&self) -> &[u8]
        ensures value { result.now ≡ self.now.body }
        ensures fits { length self.now.body ≤ 1048576 }
    {
        &self.body
    }
}

// Puts these bytes in the place of those that are there, within the room.
fn copy_within_room(room: &mut Vec<u8>, bytes: &[u8])
    requires { length bytes.now ≤ vec_capacity room.old }
    ensures items { room.new.items ≡ bytes.now }
    ensures room { vec_capacity room.old ≤ vec_capacity room.new }
{
    room.clear();
    if room.extend_from_slice(bytes).is_err() {
        unreachable!();
    }
}
