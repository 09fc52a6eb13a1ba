//! What stands behind each job.

ghost use Rattle.lcm_jobs.specs.Backing.{JobsAreGrantedWork};

/// Each job has its intent in the history, behind a grant of its occurrence, and does the work that the history before
/// the intent gives it.
///
/// Source: SOL 003 9.4.2 (Grants).
pub fn jobs_are_granted_work()
    ensures { JobsAreGrantedWork }
{}
