//! What keeps jobs sound with a history.

ghost use Rattle.lcm_jobs.specs.Keeping.{EndingsStayAgreed, FittingEventsMayCome, JobsMayArriveBehindIntents};
ghost use Rattle.lcm_jobs.specs.Keeping.{JobsMayEnd, NewAttemptsHaveNoJob};

/// Running jobs may end by themselves.
///
/// Source: own rule.
pub fn jobs_may_end()
    ensures { JobsMayEnd }
{}

/// An event that is allowed may be recorded; one that ends an attempt, where its outcome agrees with the attempt's job.
///
/// Source: own rule.
pub fn fitting_events_may_come()
    ensures { FittingEventsMayCome }
{}

/// A job may arrive for an attempt once its intent is recorded, with the work that the history before the intent gives
/// it.
///
/// Source: own rule.
pub fn jobs_may_arrive_behind_intents()
    ensures { JobsMayArriveBehindIntents }
{}

/// An attempt that may begin has no job.
///
/// Source: own rule.
pub fn new_attempts_have_no_job()
    ensures { NewAttemptsHaveNoJob }
{}

/// An outcome that agrees with an attempt's job agrees with it for ever.
///
/// Source: own rule.
pub fn endings_stay_agreed()
    ensures { EndingsStayAgreed }
{}
