//! What stands beside what among the jobs.

ghost use Rattle.lcm_jobs.specs.Beside.{ComputesStandBesideTheirs};

/// Where a compute stands among the jobs, so do its storages and all links of its instance.
///
/// Source: SOL 001, Vdu.Compute, VduCp; own rule.
pub fn computes_stand_beside_theirs()
    ensures { ComputesStandBesideTheirs }
{}
