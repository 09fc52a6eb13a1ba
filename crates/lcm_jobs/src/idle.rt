//! What stands of an instance among the jobs.

ghost use Rattle.lcm_jobs.specs.Idle.{IdleInstancesHaveNoJobStanding};

/// An instance that is NOT_INSTANTIATED without an operation that goes on has nothing standing among the jobs, whether
/// it is live or deleted.
///
/// Source: SOL 003 5.5.2.2 (Type: VnfInstance, instantiationState).
pub fn idle_instances_have_no_job_standing()
    ensures { IdleInstancesHaveNoJobStanding }
{}
