//! Why the work on an occurrence stopped, as its view shows it.
ghost use Rattle.std.specs.Prelude.{◌≡◌, ◌++◌, codes, decimal, string_bytes, IfOk, option_map};
ghost use Rattle.serde_json.specs.View.{view};
ghost use Rattle.json_views.specs.Occurrence.{cause_detail, cause_status, change_detail, error_where, shows_error};
ghost use Rattle.json_members.specs.Problem.{problem};

use itoa::Buffer;
use json_members::problem_value;
use lcm_events::OpState;
use occ_table::{Cause, OccRow};
use serde_json::Value;
use std::alloc::{AllocError, Global};

/// Why work stopped, where it did and the state shows it.
///
/// Source: SOL 003 5.5.2.13 (VnfLcmOpOcc, error).
pub fn error_where(alloc: Global, row: &OccRow) -> Result<Option<Value>, AllocError>
    ensures { IfOk result (λ value. option_map view value ≡ error_where row.now) }
{
    if !shows_error(row.state) {
        return Ok(None);
    }
    match row.cause {
        Some(cause) => Ok(Some(cause_value(alloc, cause)?)),
        None => Ok(None),
    }
}

/// Whether the state shows why work stopped.
fn shows_error(state: OpState) -> bool
    ensures { result ≡ shows_error state }
{
    match state {
        OpState::Starting | OpState::Completed => false,
        OpState::Processing
        | OpState::FailedTemp
        | OpState::Failed
        | OpState::RollingBack
        | OpState::RolledBack => true,
    }
}

fn cause_value(alloc: Global, cause: Cause) -> Result<Value, AllocError>
    ensures { IfOk result (λ value. view value ≡ problem (cause_status cause) (cause_detail cause)) }
{
    let detail = cause_detail(alloc, cause)?;
    problem_value(alloc, cause_status(cause), detail.as_str())
}

fn cause_status(cause: Cause) -> u16
    ensures { result ≡ cause_status cause }
{
    match cause {
        Cause::Denied => 403,
        _ => 500,
    }
}

fn cause_detail(alloc: Global, cause: Cause) -> Result<String, AllocError>
    ensures { IfOk result (λ text. string_bytes text ≡ cause_detail cause) }
{
    match cause {
        Cause::Denied => String::from_str(alloc, "grant denied"),
        Cause::NotCovering => String::from_str(alloc, "grant does not cover the request"),
        Cause::NoGrant => String::from_str(alloc, "no grant after five tries"),
        Cause::Broken { change, code } => broken_detail(alloc, change, code),
        Cause::Aborted { change } => change_detail(alloc, change, ": aborted"),
        Cause::CallFailed { change } => change_detail(alloc, change, ": call failed"),
        Cause::Cancelled => String::from_str(alloc, "cancelled"),
    }
}

/// What happened to the change of this number.
fn change_detail(alloc: Global, change: u16, what: &str) -> Result<String, AllocError>
    ensures { IfOk result (λ text. string_bytes text ≡ change_detail change what.now) }
{
    let mut digits = Buffer::new();
    let mut detail = String::from_str(alloc, "change ")?;
    detail.push_str(digits.format(change))?;
    detail.push_str(what)?;
    Ok(detail)
}

fn broken_detail(alloc: Global, change: u16, code: u32) -> Result<String, AllocError>
    ensures { IfOk result (λ text. string_bytes text ≡ change_detail change (codes ": broken " ++ decimal code)) }
{
    let mut digits = Buffer::new();
    let mut what = String::from_str(alloc, ": broken ")?;
    what.push_str(digits.format(code))?;
    change_detail(alloc, change, what.as_str())
}
