//! What is planned of a trial's begins.
ghost use Rattle.std.specs.Prelude.{◌≡◌, ◌+◌, IfOk};
ghost use Rattle.trial_outside.specs.Taken.{IsWork, coming, plan_of};

use site_traits::{Arrival, JobEnd, JobPlan};
use std::alloc::{AllocError, Global};

/// How many begins a trial's site answers, and how many jobs it has room for.
pub const BEGINS: u64 = 65_536;

/// Bytes that its file has room for: 4 MiB more than a journal may have, so that a trial never meets its end.
pub const FILE_BYTES: usize = 71_303_168;

/// Of so many begins one is refused.
const EACH: u64 = 16;

/// The code with which it is.
const CODE: u32 = 9;

/// What comes of the begin at this place, from 1.
fn coming(place: u64) -> Arrival
    ensures { result ≡ coming place }
{
    if place % EACH == 0 {
        return Arrival::Refused(CODE);
    }
    Arrival::Taken
}

/// The plan of the begin at this place, from 1.
fn plan_of(place: u64) -> JobPlan
    ensures { result ≡ plan_of place }
{
    JobPlan {
        arrival: coming(place),
        looks: 0,
        end: JobEnd::Done,
        abortable: true,
    }
}

/// The plans of all begins that are answered, in turn.
pub fn all_plans(alloc: Global) -> Result<Vec<JobPlan>, AllocError>
    ensures { IfOk result (λ plans. IsWork plans.items) }
{
    let mut plans = Vec::with_capacity(alloc, BEGINS as usize)?;
    for before in 0..BEGINS {
        plans.push(plan_of(before + 1))?;
    }
    Ok(plans)
}
