//! The bodies that ask for an instance to be started or stopped, and to be taken down.
ghost use Rattle.std.specs.Prelude.{◌≡◌, IsOk};
ghost use Rattle.serde_json.specs.View.{view};
ghost use Rattle.json_bodies.specs.Body.{Gives};
ghost use Rattle.json_bodies.specs.Operations.{operate_in, operate_of, terminate_in, terminate_of};

use crate::body::{BodyFault, object};
use crate::forms::{needed, optional};
use crate::lists::WholeNumber;
use crate::words::{AnyPower, AnyStopType};
use lcm_events::StopType;
use serde_json::Value;
use std::alloc::Global;

/// The body of an operate request.
///
/// Source: SOL 003 5.5.2.10 (OperateVnfRequest).
#[derive(Drop)]
pub struct OperateBody {
    /// `changeStateTo`: STARTED, and not STOPPED.
    pub started: bool,
    /// `stopType`.
    pub stop: Option<StopType>,
}

/// The body of a terminate request.
///
/// Source: SOL 003 5.5.2.8 (TerminateVnfRequest).
#[derive(Drop)]
pub struct TerminateBody {
    /// `terminationType`.
    pub mode: StopType,
    /// `gracefulTerminationTimeout`, in seconds.
    pub timeout: Option<u32>,
}

/// Reads the body of an operate request.
///
/// Refusals: `Malformed` exactly where the bytes are no JSON object; `Lacks` and `Wrong` with the first member that
/// fails, in the order `changeStateTo`, which is STARTED or STOPPED, `stopType`, which is FORCEFUL or GRACEFUL;
/// `Memory`, where there was none to read the bytes as JSON.
/// Source: SOL 003 5.5.2.10 (OperateVnfRequest).
pub fn read_operate(alloc: Global, bytes: &[u8]) -> Result<OperateBody, BodyFault>
    ensures { Gives result (operate_of bytes.now) }
{
    let value = object(alloc, bytes)?;
    operate_body(alloc, &value)
}

fn operate_body(alloc: Global, value: &Value) -> Result<OperateBody, BodyFault>
    ensures gives { Gives result (operate_in (view value.now)) }
    ensures memory { result ≡ Err BodyFault.Memory → IsOk (operate_in (view value.now)) }
{
    let started = needed(alloc, value, "changeStateTo", &AnyPower {})?;
    let stop = optional(alloc, value, "stopType", &AnyStopType {})?;
    Ok(OperateBody { started, stop })
}

/// Reads the body of a terminate request.
///
/// Refusals: `Malformed` exactly where the bytes are no JSON object; `Lacks` and `Wrong` with the first member that
/// fails, in the order `terminationType`, which is FORCEFUL or GRACEFUL, `gracefulTerminationTimeout`, a whole number
/// to 4,294,967,295; `Memory`, where there was none to read the bytes as JSON.
/// Source: SOL 003 5.5.2.8 (TerminateVnfRequest).
pub fn read_terminate(alloc: Global, bytes: &[u8]) -> Result<TerminateBody, BodyFault>
    ensures { Gives result (terminate_of bytes.now) }
{
    let value = object(alloc, bytes)?;
    terminate_body(alloc, &value)
}

fn terminate_body(alloc: Global, value: &Value) -> Result<TerminateBody, BodyFault>
    ensures gives { Gives result (terminate_in (view value.now)) }
    ensures memory { result ≡ Err BodyFault.Memory → IsOk (terminate_in (view value.now)) }
{
    let mode = needed(alloc, value, "terminationType", &AnyStopType {})?;
    let timeout = optional(alloc, value, "gracefulTerminationTimeout", &WholeNumber {})?;
    Ok(TerminateBody { mode, timeout })
}
