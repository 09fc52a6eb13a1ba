// The journal's file and the infrastructure's jobs: what each call does to them, and what a stop may leave.
ghost use Rattle.std.specs.Prelude.{◌≡◌, ◌≤◌, ◌+◌, ℕ, length, take, drop, OnOk, IfOk};
ghost use Rattle.site_traits.specs.Counts.{SiteCounts, Ask, asked, DiskCause, begin_counts, look_counts, abort_counts};
ghost use Rattle.site_traits.specs.Site.{SiteState, Reads, Writes, Cuts, Syncs, Begins, Looks, Aborts};

use crate::jobs::{AbortAnswer, BeginAnswer, LookAnswer};
use lcm_events::{Act, Tag};

/// A disk call failed. The site's count of disk faults rose by one in that call, or stands at its greatest value.
#[derive(Clone, Copy, Drop)]
pub struct DiskFailed;

/// The journal's file, and the jobs that an infrastructure does for the manager, in one, so that a stop leaves both of
/// one moment.
///
/// Between two calls a site does not change; in a call running jobs may end by themselves. A stop may come at any
/// moment, in a call too:
/// `state` says what it may leave. A call on the file leaves the jobs but for those that end by themselves, and a call
/// on the jobs leaves the file.
/// Source: own rule.
pub trait Site {
    /// Whether sites of this kind tell their content. Clauses on content hold where they do.
    ghost tells: { Type 0 };

    /// What the site tells.
    ghost state: { Self → SiteState };

    /// How often its calls failed, and how often writes, cuts and syncs were asked for, told or not.
    ghost counts: { Self → SiteCounts };

    /// The file's length in bytes.
    fn length(&mut self) -> Result<u64, DiskFailed>
        ensures length { tells → IfOk result (λ n. n ≡ length (state self.old).image) }
        ensures told { tells → Reads (state self.old) (state self.new) }
        ensures cause { DiskCause (counts self.old) (counts self.new) result };

    /// Fills `into` with the bytes from `at` on, all of which lie in the file.
    fn read_at(&mut self, at: u64, into: &mut [u8]) -> Result<(), DiskFailed>
        requires { tells → at + length into.old ≤ length (state self.old).image }
        ensures bytes { tells → OnOk result (into.new ≡ take (length into.old) (drop at (state self.old).image)) }
        ensures told { tells → Reads (state self.old) (state self.new) }
        ensures cause { DiskCause (counts self.old) (counts self.new) result };

    /// Writes over what is there and past the end, from a place at or before the end. Until the next sync a stop may
    /// leave any bytes in that range and past the old end.
    fn write_at(&mut self, at: u64, bytes: &[u8]) -> Result<(), DiskFailed>
        requires { tells → at ≤ length (state self.old).image }
        ensures told { tells → Writes at bytes.now result (state self.old) (state self.new) }
        ensures cause { DiskCause (asked Ask.write (counts self.old)) (counts self.new) result };

    /// Cuts the file to a length that it has. Until the next sync a stop may leave the old length or the new one.
    fn cut(&mut self, to: u64) -> Result<(), DiskFailed>
        requires { tells → to ≤ length (state self.old).image }
        ensures told { tells → Cuts to result (state self.old) (state self.new) }
        ensures cause { DiskCause (asked Ask.cut (counts self.old)) (counts self.new) result };

    /// After it succeeded, a stop leaves what a read gives.
    fn sync(&mut self) -> Result<(), DiskFailed>
        ensures told { tells → Syncs result (state self.old) (state self.new) }
        ensures cause { DiskCause (asked Ask.sync (counts self.old)) (counts self.new) result };

    /// Asks the infrastructure to begin a job for this attempt, with this work. The job is put last, at once or never:
    /// after `Failed` it may be there or not.
    fn begin(&mut self, tag: &Tag, act: &Act) -> BeginAnswer
        ensures told { tells → Begins tag.now act.now result (state self.old) (state self.new) }
        ensures cause { counts self.new ≡ begin_counts result (counts self.old) };

    /// Asks how the job of this attempt stands.
    fn look(&mut self, tag: &Tag) -> LookAnswer
        ensures told { tells → Looks tag.now result (state self.old) (state self.new) }
        ensures cause { counts self.new ≡ look_counts result (counts self.old) };

    /// Asks that the job of this attempt end. A running one may become aborted, now or never; one that has ended stays
    /// as it ended.
    fn abort(&mut self, tag: &Tag) -> AbortAnswer
        ensures told { tells → Aborts tag.now result (state self.old) (state self.new) }
        ensures cause { counts self.new ≡ abort_counts result (counts self.old) };
}
