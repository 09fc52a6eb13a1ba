//! The body that asks for an instance to be healed.
ghost use Rattle.std.specs.Prelude.{[], ◌≡◌, ◌≤◌, IfOk, IsOk, length, unwrap_or};
ghost use Rattle.serde_json.specs.View.{view};
ghost use Rattle.json_bodies.specs.Body.{Gives};
ghost use Rattle.json_bodies.specs.Operations.{heal_in, heal_of};

use crate::body::{BodyFault, object};
use crate::forms::{AnyLine, AnyName, check_optional, optional};
use crate::lists::ListOf;
use lcm_events::{Listed, Names};
use serde_json::Value;
use std::alloc::Global;
use vnfm_base::{Line, Name};

/// Machines that one request may name.
const NAMED_MAX: usize = 512;

/// The body of a heal request.
///
/// Source: SOL 003 5.5.2.9 (HealVnfRequest); SOL 002 for `vnfcInstanceId`.
#[derive(Drop)]
pub struct HealBody {
    /// `cause`.
    pub cause: Option<Line>,
    /// `vnfcInstanceId`, as it stands there: at most 512 texts, of which equal ones aren't joined. None where the
    /// member is absent.
    pub named: Names,
}

/// Reads the body of a heal request.
///
/// Refusals: `Malformed` exactly where the bytes are no JSON object; `Wrong` with the first member that fails, in the
/// order `cause`, which is a line, `vnfcInstanceId`, a list of at most 512 names; `Memory`, where there was none to
/// read the bytes as JSON, or for a body that would be taken: 256 bytes for each text of the list.
/// Source: SOL 003 5.5.2.9 (HealVnfRequest); SOL 002 for `vnfcInstanceId`; own limit.
pub fn read_heal(alloc: Global, bytes: &[u8]) -> Result<HealBody, BodyFault>
    ensures gives { Gives result (heal_of bytes.now) }
    ensures few { IfOk result (λ body. length body.named ≤ 512) }
{
    let value = object(alloc, bytes)?;
    heal_body(alloc, &value)
}

fn heal_body(alloc: Global, value: &Value) -> Result<HealBody, BodyFault>
    ensures gives { Gives result (heal_in (view value.now)) }
    ensures few { IfOk result (λ body. length body.named ≤ 512) }
    ensures memory { result ≡ Err BodyFault.Memory → IsOk (heal_in (view value.now)) }
{
    check_optional(value, "cause", &AnyLine {})?;
    let machines = ListOf {
        most: NAMED_MAX,
        entry: AnyName {},
    };
    let named: Option<Names> = optional(alloc, value, "vnfcInstanceId", &machines)?;
    let cause = optional(alloc, value, "cause", &AnyLine {})?;
    Ok(HealBody {
        cause,
        named: names_or_none(alloc, named),
    })
}

fn names_or_none(alloc: Global, named: Option<Names>) -> Names
    ensures { result ≡ unwrap_or named [] }
{
    match named {
        Some(named) => named,
        None => Listed::new(alloc),
    }
}
