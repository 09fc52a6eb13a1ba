//! The calls on an infrastructure's jobs.
ghost use Rattle.std.specs.Prelude.{◌≡◌, ◌∷◌, [], false};
ghost use Rattle.outside_edges.specs.Jobs.{JobCall};

use crate::job_log::JobLog;
use host_calls::HostFile;
use lcm_events::{Act, Tag};
use site_traits::{AbortAnswer, BeginAnswer, LookAnswer};

/// The jobs that an infrastructure does for a manager whose journal is in a file of this kind. The site that has both
/// counts the calls that fail.
///
/// Nothing tells what a real infrastructure does. So files that tell what they do stand beside jobs of which each call
/// fails. What was asked, and what it answered, is told of all.
/// Source: own rule, docs/VIM.md.
pub trait Jobs<F: HostFile> {
    ghost use Rattle.std.specs.Prelude.{ℕ, List};
    ghost use Rattle.outside_edges.specs.Jobs.{JobCall};

    /// The number of the manager whose calls these are.
    ghost manager: { Self → ℕ };

    /// The calls that were made, with their answers, the latest first.
    ghost calls: { Self → List JobCall };

    /// Calls are those of the manager of this number from now on.
    fn of_manager(&mut self, number: u32)
        ensures manager { manager self.new ≡ number }
        ensures unasked { calls self.new ≡ calls self.old };

    /// Opens a connection to the infrastructure where none is open. Whether one is open on which a call may be made.
    fn connect(&mut self) -> bool
        ensures vain { F.tells → result ≡ false }
        ensures manager { manager self.new ≡ manager self.old }
        ensures asks { calls self.new ≡ JobCall.connecting result ∷ calls self.old };

    /// Asks that a job begin for this attempt, with this work.
    fn begin(&mut self, tag: &Tag, act: &Act) -> BeginAnswer
        ensures vain { F.tells → result ≡ BeginAnswer.Failed }
        ensures manager { manager self.new ≡ manager self.old }
        ensures asks { calls self.new ≡ JobCall.beginning tag.now act.now result ∷ calls self.old };

    /// Asks how the job of this attempt stands.
    fn look(&mut self, tag: &Tag) -> LookAnswer
        ensures vain { F.tells → result ≡ LookAnswer.Failed }
        ensures manager { manager self.new ≡ manager self.old }
        ensures asks { calls self.new ≡ JobCall.looking tag.now result ∷ calls self.old };

    /// Asks that the job of this attempt end.
    fn abort(&mut self, tag: &Tag) -> AbortAnswer
        ensures vain { F.tells → result ≡ AbortAnswer.Failed }
        ensures manager { manager self.new ≡ manager self.old }
        ensures asks { calls self.new ≡ JobCall.aborting tag.now result ∷ calls self.old };
}

/// The jobs of an infrastructure that is never reached.
#[derive(Drop)]
pub struct NoJobs {
    manager: u32,
    log: JobLog,
}

impl NoJobs {
    /// Those on which no call was made, of the manager 0.
    pub fn made() -> NoJobs
        ensures manager { result.manager ≡ 0 }
        ensures unasked { result.log.calls ≡ [] }
    {
        NoJobs {
            manager: 0,
            log: JobLog::new(),
        }
    }
}

impl<F: HostFile> Jobs<F> for NoJobs {
    ghost manager = { λ jobs. jobs.manager };

    ghost calls = { λ jobs. jobs.log.calls };

    fn of_manager(&mut self, number: u32) {
        self.manager = number;
    }

    fn connect(&mut self) -> bool {
        self.log = self.log.with(&false);
        false
    }

    fn begin(&mut self, tag: &Tag, act: &Act) -> BeginAnswer {
        self.log = self.log.with(&(tag, act, BeginAnswer::Failed));
        BeginAnswer::Failed
    }

    fn look(&mut self, tag: &Tag) -> LookAnswer {
        self.log = self.log.with(&(tag, LookAnswer::Failed));
        LookAnswer::Failed
    }

    fn abort(&mut self, tag: &Tag) -> AbortAnswer {
        self.log = self.log.with(&(tag, AbortAnswer::Failed));
        AbortAnswer::Failed
    }
}
