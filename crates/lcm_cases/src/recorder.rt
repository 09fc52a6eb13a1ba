//! An orchestrator that keeps what it was asked with and polled at, and a courier that keeps what it posted.

use site_traits::{
    Call, Courier, GrantPlan, Heard, MemCourier, MemOrchestrator, Orchestrator, PostAnswer,
    PostPlan,
};
use std::alloc::{AllocError, Global};
use vnfm_base::Line;

/// An orchestrator in memory that keeps the body of each ask and the location of each poll, answered or not, each
/// behind a line feed.
pub struct Recorder {
    planned: MemOrchestrator,
    /// The bodies that it was asked with.
    pub bodies: Vec<u8>,
    /// The locations that it was polled at.
    pub locations: Vec<u8>,
}

impl Drop for Recorder {
    // Written out, so that the proof of a caller calls it and doesn't take the value apart at each of its ends.
    fn drop(self) {
        let Recorder {
            planned: _,
            bodies: _,
            locations: _,
        } = self;
    }
}

impl Recorder {
    /// One with this plan, on which no call was made.
    pub fn new(alloc: Global, plans: Vec<GrantPlan>) -> Result<Recorder, AllocError> {
        Ok(Recorder {
            planned: MemOrchestrator::new(alloc, plans)?,
            bodies: Vec::new(alloc),
            locations: Vec::new(alloc),
        })
    }
}

/// A courier in memory that keeps each post, answered or not, in a line: its status, or `fail`, its callback and its
/// body.
pub struct PostRecorder {
    alloc: Global,
    planned: MemCourier,
    /// The posts.
    pub posts: Vec<u8>,
}

impl Drop for PostRecorder {
    // Written out, so that the proof of a caller calls it and doesn't take the value apart at each of its ends.
    fn drop(self) {
        let PostRecorder {
            alloc: _,
            planned: _,
            posts: _,
        } = self;
    }
}

impl PostRecorder {
    /// One with this plan, which carried nothing yet.
    pub fn new(alloc: Global, plans: Vec<PostPlan>) -> Result<PostRecorder, AllocError> {
        Ok(PostRecorder {
            alloc,
            planned: MemCourier::new(alloc, plans)?,
            posts: Vec::new(alloc),
        })
    }
}

/// What stands in front of the body of a post to this callback that was answered so.
fn front_of_post(alloc: Global, answer: PostAnswer, uri: &Line) -> Result<String, AllocError> {
    match answer {
        PostAnswer::Status(status) => format!(in alloc; "{status} {} ", uri.as_str()),
        PostAnswer::Failed => format!(in alloc; "fail {} ", uri.as_str()),
    }
}

/// Puts the line of a post; none where there is no memory, so that it is missed.
fn put_post(alloc: Global, into: &mut Vec<u8>, answer: PostAnswer, uri: &Line, body: &[u8]) {
    if let Ok(front) = front_of_post(alloc, answer, uri) {
        if into.extend_from_slice(front.as_bytes()).is_ok() {
            put_line(into, body);
            return;
        }
    }
    into.truncate(0);
}

/// Puts a line of these bytes; none where there is no memory, so that it is missed.
fn put_line(into: &mut Vec<u8>, bytes: &[u8]) {
    if into.extend_from_slice(bytes).is_ok() && into.push(b'\n').is_ok() {
        return;
    }
    into.truncate(0);
}

impl Orchestrator for Recorder {
    ghost use Rattle.std.specs.Prelude.{[]};
    ghost use Rattle.site_traits.specs.MemOrchestrator.{counts_of};

    ghost tells = { ⊥ };

    ghost state = { λ _. record { answers = []; asked = []; polled = [] } };

    ghost counts = { λ r. counts_of r.planned };

    fn ask(&mut self, body: &[u8], heard: &mut Heard) -> Call {
        put_line(&mut self.bodies, body);
        self.planned.ask(body, heard)
    }

    fn poll(&mut self, location: &Line, heard: &mut Heard) -> Call {
        put_line(&mut self.locations, location.as_bytes());
        self.planned.poll(location, heard)
    }
}

impl Courier for PostRecorder {
    ghost use Rattle.std.specs.Prelude.{[]};
    ghost use Rattle.site_traits.specs.MemCourier.{counts_of};

    ghost tells = { ⊥ };

    ghost state = { λ _. [] };

    ghost counts = { λ c. counts_of c.planned };

    fn post(&mut self, uri: &Line, body: &[u8]) -> PostAnswer {
        let answer = self.planned.post(uri, body);
        put_post(self.alloc, &mut self.posts, answer, uri, body);
        answer
    }
}
