// A courier in memory, which gives the statuses of a plan and tells all.
ghost use Rattle.std.specs.Prelude.{◌≡◌, IfOk, length};
ghost use Rattle.site_traits.specs.MemPeers.{posts_of};

use crate::courier::{Courier, PostAnswer};
use crate::log::{BYTES, CALLS, Log};
use std::alloc::{AllocError, Global};
use vnfm_base::Line;

/// What a courier in memory does with a post.
#[derive(Clone, Copy)]
pub enum PostPlan {
    /// It fails.
    Fail,
    /// It is answered with this status.
    Status(u16),
}

/// What a post on record was: how many of its bytes are the callback, and its status.
#[derive(Clone, Copy)]
pub struct PostMark {
    /// Bytes of the callback, which stand in front of the body.
    pub uri: usize,
    /// The status that it got.
    pub status: u16,
}

/// A courier in memory, which tells all: it gives the statuses of its plan in order, and behind the plan 204.
///
/// It has room for 1,048,576 posts and 64 MiB of callbacks and bodies; a post past them fails and leaves the plan where
/// it is.
pub struct MemCourier {
    plans: Vec<PostPlan>,
    next: usize,
    posts: Log<PostMark>,
    calls: u64,
    faults: u64,
}

impl Drop for MemCourier {
    // Written out, so that the proof of a caller calls it and doesn't take the value apart at each of its ends.
    fn drop(self) {
        let MemCourier {
            plans: _,
            next: _,
            posts: _,
            calls: _,
            faults: _,
        } = self;
    }
}

impl MemCourier {
    ghost use Rattle.site_traits.specs.MemCourier.{IsNewCourier, next_post};

    /// A courier with this plan, which carried nothing yet.
    pub fn new(alloc: Global, plans: Vec<PostPlan>) -> Result<MemCourier, AllocError>
        ensures { IfOk result (IsNewCourier plans.items) }
    {
        Ok(MemCourier {
            plans,
            next: 0,
            posts: Log::new(alloc, CALLS, BYTES)?,
            calls: 0,
            faults: 0,
        })
    }

    /// How many posts got a status.
    pub fn posts(&self) -> usize
        ensures { result ≡ length self.now.posts.calls }
    {
        self.posts.len()
    }

    /// How many posts failed.
    pub fn faults(&self) -> u64
        ensures { result ≡ self.now.faults }
    {
        self.faults
    }

    // The answer that the plan has for the next post.
    fn planned(&self) -> PostPlan
        ensures { result ≡ next_post self.now }
    {
        match self.plans.get(self.next) {
            Some(plan) => *plan,
            None => PostPlan::Status(204),
        }
    }
}

impl Courier for MemCourier {
    ghost use Rattle.site_traits.specs.MemCourier.{RunsPost, counts_of};
    ghost use Rattle.site_traits.specs.Peers.{Posts, PostCause};

    ghost tells = { Unit {0} };

    ghost state = { λ c. posts_of c.posts.calls };

    ghost counts = { counts_of };

    fn post(&mut self, uri: &Line, body: &[u8]) -> PostAnswer
        ensures told { Posts uri.now body.now result (posts_of self.old.posts.calls) (posts_of self.new.posts.calls) }
        ensures cause { PostCause result (counts_of self.old) (counts_of self.new) }
        ensures runs { RunsPost uri.now body.now result self.old self.new }
    {
        self.calls = self.calls.saturating_add(1);
        if let PostPlan::Status(status) = self.planned() {
            let mark = PostMark {
                uri: uri.len(),
                status,
            };
            if self.posts.push(mark, uri.as_bytes(), body) {
                self.next = self.next.saturating_add(1);
                return PostAnswer::Status(status);
            }
        } else {
            self.next = self.next.saturating_add(1);
        }
        self.faults = self.faults.saturating_add(1);
        PostAnswer::Failed
    }
}
