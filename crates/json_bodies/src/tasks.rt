//! The bodies of the tasks of an instance, and of those of an occurrence.
ghost use Rattle.std.specs.Prelude.{◌≡◌, IsOk};
ghost use Rattle.serde_json.specs.View.{view};
ghost use Rattle.json_bodies.specs.Body.{Gives, cancel_in, cancel_of, instantiate_in, instantiate_of};

use crate::body::{BodyFault, object};
use crate::forms::{AnyName, SomeName, needed, optional};
use crate::words::AnyCancelMode;
use lcm_events::CancelMode;
use serde_json::Value;
use std::alloc::Global;
use vnfm_base::Name;

/// The body of an instantiate request.
///
/// Source: SOL 003 5.5.2.4 (InstantiateVnfRequest).
#[derive(Drop)]
pub struct InstantiateBody {
    /// `flavourId`, not empty.
    pub flavour: Name,
    /// `instantiationLevelId`.
    pub level: Option<Name>,
}

/// Reads the body of an instantiate request.
///
/// Refusals: `Malformed` exactly where the bytes are no JSON object; `Lacks` and `Wrong` with the first member that
/// fails, in the order `flavourId`, `instantiationLevelId`; `Memory`, where there was none to read the bytes as JSON.
/// Source: SOL 003 5.5.2.4 (InstantiateVnfRequest).
pub fn read_instantiate(alloc: Global, bytes: &[u8]) -> Result<InstantiateBody, BodyFault>
    ensures { Gives result (instantiate_of bytes.now) }
{
    let value = object(alloc, bytes)?;
    instantiate_body(alloc, &value)
}

fn instantiate_body(alloc: Global, value: &Value) -> Result<InstantiateBody, BodyFault>
    ensures gives { Gives result (instantiate_in (view value.now)) }
    ensures memory { result ≡ Err BodyFault.Memory → IsOk (instantiate_in (view value.now)) }
{
    let flavour = needed(alloc, value, "flavourId", &SomeName {})?;
    let level = optional(alloc, value, "instantiationLevelId", &AnyName {})?;
    Ok(InstantiateBody { flavour, level })
}

/// Reads the body of a cancel request.
///
/// Refusals: `Malformed` exactly where the bytes are no JSON object; `Lacks` and `Wrong` for `cancelMode`, which is
/// GRACEFUL or FORCEFUL;
/// `Memory`, where there was none to read the bytes as JSON.
/// Source: SOL 003 5.5.2.14 (CancelMode), 5.4.17 (Cancel operation task).
pub fn read_cancel(alloc: Global, bytes: &[u8]) -> Result<CancelMode, BodyFault>
    ensures { Gives result (cancel_of bytes.now) }
{
    let value = object(alloc, bytes)?;
    cancel_body(alloc, &value)
}

fn cancel_body(alloc: Global, value: &Value) -> Result<CancelMode, BodyFault>
    ensures gives { Gives result (cancel_in (view value.now)) }
    ensures memory { result ≡ Err BodyFault.Memory → IsOk (cancel_in (view value.now)) }
{
    needed(alloc, value, "cancelMode", &AnyCancelMode {})
}
