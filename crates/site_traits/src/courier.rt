// Who carries notifications to their subscribers.
ghost use Rattle.std.specs.Prelude.{List};
ghost use Rattle.site_traits.specs.Counts.{CallCounts};
ghost use Rattle.site_traits.specs.Peers.{Post, Posts, PostCause};

use vnfm_base::Line;

/// What came of a post.
#[derive(Clone, Copy)]
pub enum PostAnswer {
    /// It was answered with this status.
    Status(u16),
    /// No answer came. The courier's count of faults rose by one.
    Failed,
}

/// Carries notifications to their subscribers.
///
/// Source: SOL 003 5.4.20.
pub trait Courier {
    /// Whether couriers of this kind tell their content. Clauses on content hold where they do.
    ghost tells: { Type 0 };

    /// The posts that got a status, the oldest first.
    ghost state: { Self → List Post };

    /// How often it was asked to post, and how often a post failed, told or not.
    ghost counts: { Self → CallCounts };

    /// Posts this body to this callback.
    fn post(&mut self, uri: &Line, body: &[u8]) -> PostAnswer
        ensures told { tells → Posts uri.now body.now result (state self.old) (state self.new) }
        ensures cause { PostCause result (counts self.old) (counts self.new) };
}
