//! The jobs of a change come one after the other.

ghost use Rattle.lcm_jobs.specs.Alternating.{EachAttemptHasOneJob, JobsAlternate, RunningJobsAreOpen};

/// No two jobs have one tag.
///
/// Source: own rule.
pub fn each_attempt_has_one_job()
    ensures { EachAttemptHasOneJob }
{}

/// A job that runs is of an attempt that the history hasn't ended.
///
/// Source: own rule.
pub fn running_jobs_are_open()
    ensures { RunningJobsAreOpen }
{}

/// Of the jobs of a change all but the latest have ended, and those that were done made it and undid it in turn.
///
/// Source: own rule.
pub fn jobs_alternate()
    ensures { JobsAlternate }
{}
