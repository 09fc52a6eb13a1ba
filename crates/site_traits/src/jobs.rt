// What an infrastructure does for a manager: jobs, and the answers to the calls that begin them, look at them and abort
// them.
use vnfm_base::Name;

/// How a job stands.
#[derive(Clone, Copy)]
pub enum Phase {
    /// It goes on.
    Running,
    /// It did its work on the resource of this name.
    Done(Name),
    /// It ended with this code of the infrastructure, and its work isn't done.
    Broken(u32),
    /// It was aborted, and its work isn't done.
    Aborted,
}

/// What `begin` answers.
#[derive(Clone, Copy)]
pub enum BeginAnswer {
    /// The job was put last.
    Begun,
    /// The infrastructure refused it with this code. There is no such job, or a broken one.
    Refused(u32),
    /// The call failed. The job was put last, or never will be.
    Failed,
}

/// What `look` answers.
#[derive(Clone, Copy)]
pub enum LookAnswer {
    /// There is no such job.
    Absent,
    /// It goes on.
    Running,
    /// It did its work on the resource of this name.
    Done(Name),
    /// It ended with this code of the infrastructure.
    Broken(u32),
    /// It was aborted.
    Aborted,
    /// The call failed.
    Failed,
}

/// What `abort` answers.
#[derive(Clone, Copy)]
pub enum AbortAnswer {
    /// The job was asked to end. It may have ended otherwise before.
    Asked,
    /// The call failed. The job may have been asked.
    Failed,
}
